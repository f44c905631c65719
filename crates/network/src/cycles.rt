// Chains in rows of marks: mark b of row a is a step from a to b, and a cycle is a chain of steps that leads from a number to itself.
// Kept: the table whole and a number of at most 12, since `Leads` speaks of any table; a type for the two would say `n ≤ 12` in another place.
ghost use Rattle.std.specs.Prelude.{◌≡◌, ◌≤◌, get_or, length};
ghost use Rattle.std.specs.List.{list_any, range_with_len};
ghost use Rattle.reply.specs.Tools.{any};
ghost use Rattle.marks.specs.Row.{marked, no_marks};
ghost use Rattle.network.specs.Chains.{holds, chains};
ghost use Rattle.network.specs.RowChains.{joined, Leads};

use marks::Row;

// The marks of the row and, where it has mark k, those of row k, which is `via`.
#[tactic(auto, unfolding(crate::specs::RowChains::joined))]
fn join(row: Row, k: usize, via: Row) -> Row
    ensures { result ≡ joined k via row }
{
    if row.has(k) { row.or(via) } else { row }
}

// Where chains of steps lead, among the first n: each row joined with row k, for one k after another.
pub fn lead(rows: [Row; 12], n: usize) -> [Row; 12]
    requires { n ≤ 12 }
    ensures { Leads n (λ a b. marked (get_or rows a no_marks) b) n result }
{
    let mut out = rows;
    for k in 0..n {
        let via = out[k];
        for row in &mut out[..n] {
            *row = join(*row, k, via);
        }
    }
    out
}

// Whether one of the rows has its own mark.
fn leads_back(rows: &[Row]) -> bool
    ensures { result ≡ list_any (λ a. marked (get_or rows.now a no_marks) a) (range_with_len 0 (length rows.now)) }
{
    (0..rows.len()).any(|a| rows[a].has(a))
}

// Whether a chain leads from one of the first n to itself.
pub fn has_cycle(rows: [Row; 12], n: usize) -> bool
    requires { n ≤ 12 }
    ensures { result ≡ any n (λ a. holds (chains n (λ a b. marked (get_or rows a no_marks) b)) a a) }
{
    let ends = lead(rows, n);
    leads_back(&ends[..n])
}
