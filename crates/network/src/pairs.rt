// Two processes of a pair, and rows of marks for the pairs.
ghost use Rattle.std.specs.Prelude.{◌≡◌, replicate};
ghost use Rattle.marks.specs.Row.{no_marks};
ghost use Rattle.network.specs.Pairs.{apart};

use marks::Row;

// Two processes of n, and not one.
#[tactic(auto, unfolding(crate::specs::Pairs::apart))]
pub fn are_apart(n: u32, a: u32, b: u32) -> bool
    ensures { result ≡ apart n a b }
{
    a < n && b < n && a != b
}

pub fn no_rows() -> [Row; 12]
    ensures { result ≡ replicate 12 no_marks }
{
    [Row { low: 0, high: 0 }; 12]
}
