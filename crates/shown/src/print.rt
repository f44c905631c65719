// What several lines say: a reply and its place, what a call gives or why it refuses, numbers and bytes.
use reply::{Answer, Refusal};
use std::convert::AsSlice;
use std::fmt::Display;
use std::{fmt, io};

// The head of a line: its label, text or any other bytes, and a colon.
pub fn head(rt: &impl Print, label: impl AsSlice<u8> + Drop) -> io::Result<()> {
    rt.write_all(label.as_slice())?;
    print!(rt; ": ")
}

// What a call answers, refused or not.
#[derive(Drop)]
pub struct Told(pub Answer);

impl Display for Told {
    fn fmt<W: fmt::Write>(&self, f: &mut fmt::Formatter<W>) -> fmt::Result {
        let Answer { reply, place } = self.0;
        write!(f, "reply {} at {place}", u32::from(reply))
    }
}

// Why a call refuses.
#[derive(Drop)]
pub struct Refused(pub Refusal);

impl Display for Refused {
    fn fmt<W: fmt::Write>(&self, f: &mut fmt::Formatter<W>) -> fmt::Result {
        let Refusal { reply, place } = self.0;
        write!(f, "refused {} at {place}", u32::from(reply))
    }
}

// What a call gives, or why it refuses.
#[derive(Drop)]
pub struct Outcome<T>(pub Answer, pub T);

impl<T: Display> Display for Outcome<T> {
    fn fmt<W: fmt::Write>(&self, f: &mut fmt::Formatter<W>) -> fmt::Result {
        match self.0.ok() {
            Ok(()) => self.1.fmt(f),
            Err(refusal) => Refused(refusal).fmt(f),
        }
    }
}

// Each number after a space.
#[derive(Drop)]
pub struct Numbers<'a>(pub &'a [u32]);

impl Display for Numbers<'_> {
    fn fmt<W: fmt::Write>(&self, f: &mut fmt::Formatter<W>) -> fmt::Result {
        for number in self.0 {
            write!(f, " {number}")?;
        }
        Ok(())
    }
}

// Each byte after a space, in hexadecimal.
#[derive(Drop)]
pub struct Bytes<'a>(pub &'a [u8]);

impl Display for Bytes<'_> {
    fn fmt<W: fmt::Write>(&self, f: &mut fmt::Formatter<W>) -> fmt::Result {
        for byte in self.0 {
            write!(f, " {byte:02x}")?;
        }
        Ok(())
    }
}

// The first byte and the last, if there are any.
#[derive(Drop)]
pub struct Ends<'a>(pub &'a [u8]);

impl Display for Ends<'_> {
    fn fmt<W: fmt::Write>(&self, f: &mut fmt::Formatter<W>) -> fmt::Result {
        match (self.0.first(), self.0.last()) {
            (Some(first), Some(last)) => write!(f, " first {first:02x}, last {last:02x}"),
            _ => Ok(()),
        }
    }
}

// The output words; of more than 32 the last eight.
#[derive(Drop)]
pub struct Output<'a>(pub &'a [u32]);

impl Display for Output<'_> {
    fn fmt<W: fmt::Write>(&self, f: &mut fmt::Formatter<W>) -> fmt::Result {
        let words = self.0;
        let shown = if words.len() <= 32 {
            words
        } else {
            &words[words.len() - 8..]
        };
        write!(f, ", output{}", Numbers(shown))
    }
}
