// The predecessor rows of a job table: row j marks every job that precedes job j. Built from whole rows: the jobs of each process, those of its
// relatives joined to them once, and of these what stands before job j.
ghost use Rattle.std.specs.Prelude.{◌≡◌, ◌≤◌, ◌<◌, length};
ghost use Rattle.marks.specs.Row.{no_marks};
ghost use Rattle.network.specs.Lists.{fill_to};
ghost use Rattle.network.specs.Chains.{relation};
ghost use Rattle.graph.specs.Order.{row_relation};
ghost use Rattle.graph.specs.Work.{precedes_by};
ghost use Rattle.graph.specs.Graph.{rows_from, rows_to};
ghost use Rattle.graph.specs.PrecedenceTold.{JobsTold, JobsOf, is_relative, jobs_related, RelatedRows, Relatives, RowsBy};

use crate::Job;
use marks::Row;

// Row q marks the jobs of process q.
fn jobs_of_each(jobs: &[Job]) -> [Row; 12]
    requires { JobsTold 12 (length jobs.now) jobs.now }
    ensures { JobsOf (length jobs.now) jobs.now result }
{
    let mut rows = [Row::empty(); 12];
    for (j, job) in jobs.iter().enumerate() {
        let process = job.process as usize;
        rows[process] = rows[process].with(j);
    }
    rows
}

// Whether process q is p, or the row of one of them marks the other: `there` is the row of q, and `own` that of p.
fn is_relative(there: Row, own: Row, p: usize, q: usize) -> bool
    ensures { result ≡ is_relative there own p q }
{
    q == p || there.has(p) || own.has(q)
}

// The jobs of process p and of its relatives: row q of `jobs` marks those of process q.
fn jobs_related(jobs: &[Row; 12], ahead: &[Row], p: usize) -> Row
    requires { (length ahead.now ≤ 12) × (p < length ahead.now) }
    ensures { result ≡ jobs_related (length ahead.now) jobs.now ahead.now p }
{
    let own = ahead[p];
    let mut row = Row::empty();
    for (q, there) in ahead.iter().enumerate() {
        if is_relative(*there, own, p, q) {
            row = row.or(jobs[q]);
        }
    }
    row
}

// The same of each process.
fn related_rows(jobs: &[Row; 12], ahead: &[Row]) -> [Row; 12]
    requires { length ahead.now ≤ 12 }
    ensures { RelatedRows (length ahead.now) jobs.now ahead.now result }
{
    let mut rows = *jobs;
    for p in 0..ahead.len() {
        rows[p] = jobs_related(jobs, ahead, p);
    }
    rows
}

// Row p marks the jobs of process p and of its relatives.
fn relatives(jobs: &[Job], ahead: &[Row]) -> [Row; 12]
    requires { JobsTold (length ahead.now) (length jobs.now) jobs.now }
    ensures { Relatives jobs.now ahead.now result }
{
    related_rows(&jobs_of_each(jobs), ahead)
}

// Row j is the part of the marks of j's relatives that is asked for, by the marks of the jobs before j.
fn rows_by<F: Fn(Row, Row, usize) -> Row>(jobs: &[Job], ahead: &[Row], part: F) -> [Row; 128]
    requires told { JobsTold (length ahead.now) (length jobs.now) jobs.now }
    requires callable { F.IsAlwaysCallable part }
    ensures { RowsBy (F.post part) jobs.now ahead.now result }
{
    let related = relatives(jobs, ahead);
    let mut rows = [Row::empty(); 128];
    let mut passed = Row::empty();
    for (j, job) in jobs.iter().enumerate() {
        rows[j] = part(related[job.process as usize], passed, j);
        passed = passed.with(j);
    }
    rows
}

// Row j marks the jobs before j of j's process and of the processes related to it, by the rows `ahead` of the processes.
pub fn before_rows(jobs: &[Job], ahead: &[Row]) -> [Row; 128]
    requires { JobsTold (length ahead.now) (length jobs.now) jobs.now }
    ensures { result ≡ fill_to 128 no_marks (rows_to (length jobs.now) (relation (length jobs.now) (precedes_by (row_relation (length ahead.now) ahead.now) jobs.now))) }
{
    rows_by(
        jobs,
        ahead,
        |row, passed, _| row.without(row.without(passed)),
    )
}

// Row i marks the jobs after i of i's process and of the processes related to it: the same relation, the other way.
pub fn after_rows(jobs: &[Job], ahead: &[Row]) -> [Row; 128]
    requires { JobsTold (length ahead.now) (length jobs.now) jobs.now }
    ensures { result ≡ fill_to 128 no_marks (rows_from (length jobs.now) (relation (length jobs.now) (precedes_by (row_relation (length ahead.now) ahead.now) jobs.now))) }
{
    rows_by(jobs, ahead, |row, passed, i| row.without(passed.with(i)))
}
