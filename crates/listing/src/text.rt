// Text as it grows in a fixed buffer: words, and numbers in plain decimal.
ghost use Rattle.std.specs.Prelude.{◌+◌, ◌≤◌, ◌<◌, ◌++◌, ◌∷◌, [], ◌≡◌, length, take};
ghost use Rattle.listing.specs.Listing.{decimal};
ghost use Rattle.listing.specs.Printed.{Put, no_text};

// The text is the first `length` bytes.
#[derive(Clone, Copy)]
pub struct Text {
    pub bytes: [u8; 4096],
    pub length: usize,
}

impl Text {
    pub fn empty() -> Text
        ensures { result ≡ no_text }
    {
        Text {
            bytes: [0; 4096],
            length: 0,
        }
    }

    // The text so far.
    pub fn as_bytes(&self) -> &[u8]
        requires { self.now.length ≤ 4096 }
        ensures { result.now ≡ take self.now.length self.now.bytes }
    {
        let bytes = &self.bytes[..];
        &bytes[..self.length]
    }

    pub fn words(&mut self, words: &[u8])
        requires { self.old.length + length words.now ≤ 4096 }
        ensures { Put self.old words.now self.new }
    {
        let end = self.length + words.len();
        let bytes = &mut self.bytes[..];
        bytes[self.length..end].copy_from_slice(words);
        self.length = end;
    }

    // A number in plain decimal.
    // Kept: `itoa` and not `write!`, which may give an `Err` whatever the writer, as its contract goes, and `list` promises the text.
    pub fn number(&mut self, n: u64)
        requires { self.old.length + length (decimal n) ≤ 4096 }
        ensures { Put self.old (decimal n) self.new }
    {
        self.words(itoa::Buffer::new().format(n).as_bytes());
    }

    // A number, and a byte after it.
    pub fn field(&mut self, n: u32, after: u8)
        requires { self.old.length + length (decimal n) < 4096 }
        ensures { Put self.old (decimal n ++ (after ∷ [])) self.new }
    {
        self.number(n as u64);
        self.words(&[after]);
    }
}
