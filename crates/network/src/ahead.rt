// Rows of marks from the pairs of a struct, which may be any pairs: row a marks b where a-b is a pair.
ghost use Rattle.network.specs.AheadTold.{MarksPairs};

use crate::{Pair, pairs};
use marks::Row;

// Each pair marked in the row of its higher process; a pair of a number that is no process is left out.
pub fn rows_of(pairs: &[Pair]) -> [Row; 12]
    ensures { MarksPairs pairs.now result }
{
    let mut rows = pairs::no_rows();
    for pair in pairs {
        let higher = pair.higher as usize;
        let lower = pair.lower as usize;
        if higher < 12 && lower < 12 {
            rows[higher] = rows[higher].with(lower);
        }
    }
    rows
}
