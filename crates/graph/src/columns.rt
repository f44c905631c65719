// The tables of jobs and of rows, column by column: numbers can be lent to C, records of jobs cannot.
// Kept: six functions, named in docs/CONTRACTS.md and held by the edits columns_of_processes and columns_of_releases. Each a loop: the array's `map`, which was proved, copies the
// whole table once more for each column, and the graph of a small network then took half as long again.
ghost use Rattle.graph.specs.declared.Job.{Job};
ghost use Rattle.marks.specs.Row.{no_marks};
ghost use Rattle.marks.specs.declared.Row.{Row};
ghost use Rattle.graph.specs.Sequence.{no_job};
ghost use Rattle.graph.specs.Columns.{Column};

use crate::Job;
use marks::Row;

pub fn processes(jobs: [Job; 128]) -> [u32; 128]
    ensures { Column no_job (λ (j : Job). j.process) jobs result }
{
    let mut column = [0; 128];
    for (j, job) in jobs.iter().enumerate() {
        column[j] = job.process;
    }
    column
}

pub fn releases(jobs: [Job; 128]) -> [u32; 128]
    ensures { Column no_job (λ (j : Job). j.release) jobs result }
{
    let mut column = [0; 128];
    for (j, job) in jobs.iter().enumerate() {
        column[j] = job.release;
    }
    column
}

pub fn deadlines(jobs: [Job; 128]) -> [u32; 128]
    ensures { Column no_job (λ (j : Job). j.deadline) jobs result }
{
    let mut column = [0; 128];
    for (j, job) in jobs.iter().enumerate() {
        column[j] = job.deadline;
    }
    column
}

pub fn budgets(jobs: [Job; 128]) -> [u32; 128]
    ensures { Column no_job (λ (j : Job). j.budget) jobs result }
{
    let mut column = [0; 128];
    for (j, job) in jobs.iter().enumerate() {
        column[j] = job.budget;
    }
    column
}

pub fn low_words(rows: [Row; 128]) -> [u64; 128]
    ensures { Column no_marks (λ (row : Row). row.low) rows result }
{
    let mut column = [0; 128];
    for (j, row) in rows.iter().enumerate() {
        column[j] = row.low;
    }
    column
}

pub fn high_words(rows: [Row; 128]) -> [u64; 128]
    ensures { Column no_marks (λ (row : Row). row.high) rows result }
{
    let mut column = [0; 128];
    for (j, row) in rows.iter().enumerate() {
        column[j] = row.high;
    }
    column
}
