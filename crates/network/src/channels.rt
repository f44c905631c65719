// What a channel may be: its capacity by its kind, and its ends by the pairs.
ghost use Rattle.std.specs.Prelude.{◌≡◌, ◌≤◌};
ghost use Rattle.network.specs.Read.{most_capacity};
ghost use Rattle.network.specs.Told.{ends_by};

use crate::pairs;
use marks::Row;

pub fn most_capacity(kind: u32) -> u32
    ensures { result ≡ most_capacity kind }
{
    if kind == 1 { 1 } else { 8 }
}

// Two processes of n with a pair of their own, the one way or the other.
#[tactic(auto, unfolding(crate::specs::Told::ends_by, crate::specs::Pairs::apart))]
pub fn are_paired(rows: [Row; 12], n: u32, writer: u32, reader: u32) -> bool
    requires { n ≤ 12 }
    ensures { result ≡ ends_by n rows writer reader }
{
    let w = writer as usize;
    let r = reader as usize;
    pairs::are_apart(n, writer, reader) && (rows[w].has(r) || rows[r].has(w))
}
