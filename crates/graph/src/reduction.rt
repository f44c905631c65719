// The transitive reduction of a relation that only goes forward, on whole rows of marks: an edge stays exactly when no other path joins its ends.
ghost use Rattle.std.specs.Prelude.{◌≡◌, ◌≤◌, length};
ghost use Rattle.marks.specs.Row.{no_marks};
ghost use Rattle.network.specs.Lists.{fill_to};
ghost use Rattle.graph.specs.Order.{row_relation};
ghost use Rattle.graph.specs.Graph.{reduction_of, rows_from};
ghost use Rattle.graph.specs.ReductionTold.{Later, ReducedFrom, FindsMark, except_of, ReachesOn, gathered, marks_of};

use marks::Row;

// Row i marks each job that an edge leads to from job i.
#[derive(Clone, Copy)]
pub struct Reduced {
    pub rows: [Row; 128],
    pub edges: u32,
}

// A mark of the row, the lowest.
fn lowest(row: Row) -> Option<usize>
    ensures { FindsMark row result }
{
    if row.low > 0 {
        return Some(row.low.trailing_zeros() as usize);
    }
    if row.high > 0 {
        return Some(64 + row.high.trailing_zeros() as usize);
    }
    None
}

// The row without mark i.
fn except(row: Row, i: usize) -> Row
    ensures { result ≡ except_of row i }
{
    row.without(Row::empty().with(i))
}

// What the jobs that a row marks reach: row j of `reached` marks what job j reaches. The nearest job that is left goes next; what it reaches needs no
// look of its own.
fn gathered(row: Row, reached: &[Row; 128]) -> Row
    requires { ReachesOn reached.now row }
    ensures { result ≡ gathered 128 reached.now row }
{
    let mut far = Row::empty();
    let mut left = row;
    while let Some(j) = lowest(left) {
        let via = reached[j];
        far = far.or(via);
        left = except(left.without(via), j);
    }
    far
}

// Row i marks each job whose edge from job i stays: a successor of i that no other successor reaches.
fn edges_from(after: &[Row]) -> [Row; 128]
    requires { (length after.now ≤ 128) × Later (length after.now) after.now }
    ensures { result ≡ fill_to 128 no_marks (rows_from (length after.now) (reduction_of (length after.now) (row_relation (length after.now) after.now))) }
{
    let mut reached = [Row::empty(); 128];
    let mut edges = [Row::empty(); 128];
    for i in (0..after.len()).rev() {
        let row = after[i];
        let far = gathered(row, &reached);
        reached[i] = row.or(far);
        edges[i] = row.without(far);
    }
    edges
}

// How many marks the rows have.
fn total(rows: &[Row]) -> u32
    requires { length rows.now ≤ 128 }
    ensures { result ≡ marks_of (length rows.now) rows.now }
{
    let mut sum = 0;
    for row in rows {
        sum += row.count();
    }
    sum
}

// The edges that stay of a relation of jobs. Row i of `after` marks every job that it holds from job i to.
pub fn reduce(after: &[Row]) -> Reduced
    requires { (length after.now ≤ 128) × Later (length after.now) after.now }
    ensures { ReducedFrom (length after.now) after.now result.rows result.edges }
{
    let rows = edges_from(after);
    let edges = total(&rows[..after.len()]);
    Reduced { rows, edges }
}
