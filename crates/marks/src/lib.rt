// Rows of 128 marks: which of 128 jobs precede a job, have finished, or are joined to it by an edge.
#![tactic(auto)]

ghost use Rattle.std.specs.Prelude.{◌≡◌};
ghost use Rattle.marks.specs.Row.{no_marks, marked, with_of, or_of, without_of, inside_of, count_of};

// Mark k is bit k of the low word; from 64 on, bit k - 64 of the high word.
#[repr(C)]
#[derive(Clone, Copy, Debug, PartialEq, Eq)]
pub struct Row {
    pub low: u64,
    pub high: u64,
}

impl Row {
    pub fn empty() -> Row
        ensures { result ≡ no_marks }
    {
        Row { low: 0, high: 0 }
    }

    // The marks of the row, and k. A k of 128 or more is no place of the row, which stays as it is.
    pub fn with(self, k: usize) -> Row
        ensures { result ≡ with_of self k }
    {
        if k < 64 {
            return Row {
                low: self.low | (1u64 << k),
                high: self.high,
            };
        }
        if k < 128 {
            return Row {
                low: self.low,
                high: self.high | (1u64 << (k - 64)),
            };
        }
        self
    }

    pub fn has(self, k: usize) -> bool
        ensures { result ≡ marked self k }
    {
        if k < 64 {
            return (self.low >> k) % 2 == 1;
        }
        if k < 128 {
            return (self.high >> (k - 64)) % 2 == 1;
        }
        false
    }

    // The marks of either row.
    pub fn or(self, other: Row) -> Row
        ensures { result ≡ or_of self other }
    {
        Row {
            low: self.low | other.low,
            high: self.high | other.high,
        }
    }

    // The marks of the row that the other has not.
    pub fn without(self, other: Row) -> Row
        ensures { result ≡ without_of self other }
    {
        Row {
            low: self.low ^ (self.low & other.low),
            high: self.high ^ (self.high & other.high),
        }
    }

    // Whether every mark of the row is one of the other.
    pub fn inside(self, other: Row) -> bool
        ensures { result ≡ inside_of self other }
    {
        (self.low & other.low) == self.low && (self.high & other.high) == self.high
    }

    // How many marks the row has.
    pub fn count(self) -> u32
        ensures { result ≡ count_of self }
    {
        self.low.count_ones() + self.high.count_ones()
    }
}
