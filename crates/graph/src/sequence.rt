// The jobs of a frame in sequence: by release time, and at one time the smallest process that no pending process is ahead of, one job each time.
// A process whose burst has begun stays the smallest that is free, so that its whole burst follows. Sets of processes are words: digit p is process p.
ghost use Rattle.std.specs.Prelude.{◌≡◌, ◌+◌, ◌≤◌, ◌<◌, length};
ghost use Rattle.network.specs.Valid.{GoodProcess};
ghost use Rattle.graph.specs.Order.{row_relation};
ghost use Rattle.graph.specs.Sequence.{sequence_to};
ghost use Rattle.graph.specs.SequenceTold.{job_from, AddsDigit, TakesDigit, NextDigit, FirstOf, FirstWords, FewDigits, FirstFree, GoodProcesses, DueFrom, due_after, TellsReleased, ReleasedAt, word_relation, HoldsJobs, FitsTable};

use crate::{Job, NO_JOB};
use marks::Row;
use network::Process;

// The first `count` jobs are those of the sequence so far; the rest are zero.
// Kept: no heap, fixed memory; `Framed` and `PrecedenceGraph` give the whole table too, with its count beside it.
#[derive(Clone, Copy)]
pub struct Jobs {
    pub count: usize,
    pub jobs: [Job; 128],
}

// The processes that release at a time; and the time of the next release, or the frame's end.
#[derive(Clone, Copy)]
pub struct Released {
    pub pending: u64,
    pub next: u32,
}

// The word, with digit q if that is to be added.
fn with_digit(word: u64, q: usize, add: bool) -> u64
    requires { q < 64 }
    ensures { AddsDigit word q add result }
{
    if add { word | (1 << q) } else { word }
}

fn without_digit(word: u64, p: usize) -> u64
    requires { p < 64 }
    ensures { TakesDigit word p result }
{
    word & !(1 << p)
}

// The first digit from a place on.
fn next_digit(word: u64, at: usize) -> Option<usize>
    requires { at < 64 }
    ensures { NextDigit word at result }
{
    let rest = word >> at;
    if rest == 0 {
        return None;
    }
    Some(at + rest.trailing_zeros() as usize)
}

// The processes that come before p.
fn first_of(ahead: &[Row], p: usize) -> u64
    requires { length ahead.now ≤ 12 }
    ensures { FirstOf (length ahead.now) ahead.now p result }
{
    let mut word = 0;
    for (q, row) in ahead.iter().enumerate() {
        word = with_digit(word, q, row.has(p));
    }
    word
}

// The same for each process.
fn first_words(ahead: &[Row]) -> [u64; 12]
    requires { length ahead.now ≤ 12 }
    ensures { FirstWords (length ahead.now) ahead.now result }
{
    let mut words = [0; 12];
    for p in 0..ahead.len() {
        words[p] = first_of(ahead, p);
    }
    words
}

// A process's next release: if it is at the time, the one after it.
fn due_after(process: Process, time: u32, due: u32) -> u32
    requires { GoodProcess process × (time ≤ 2000) }
    ensures { result ≡ due_after process time due }
{
    if due == time {
        due + process.period
    } else {
        due
    }
}

// Which processes release at a time of a frame, and when they release again. `due` has the next release of each, from the time on.
fn released_at(processes: &[Process], time: u32, frame: u32, due: &mut [u32; 12]) -> Released
    requires good_processes { GoodProcesses (length processes.now) processes.now × (time < frame) × (frame ≤ 2000) }
    requires due_from { DueFrom (length processes.now) processes.now time due.old }
    ensures tells_released { TellsReleased (length processes.now) processes.now time frame result }
    ensures due_next { DueFrom (length processes.now) processes.now result.next due.new }
{
    let mut pending = 0;
    let mut next = frame;
    for (i, process) in processes.iter().enumerate() {
        let at = due[i];
        pending = with_digit(pending, i, at == time);
        let later = due_after(*process, time, at);
        due[i] = later;
        next = next.min(later);
    }
    Released { pending, next }
}

// The smallest pending process that no pending process comes before: word p of `first` has the processes before p.
fn next_free(pending: u64, first: &[u64; 12]) -> Option<usize>
    requires { FewDigits 12 pending }
    ensures { FirstFree pending first.now result }
{
    let mut at = 0;
    while let Some(p) = next_digit(pending, at) {
        if first[p] & pending == 0 {
            return Some(p);
        }
        at = p + 1;
    }
    None
}

// The job that process p releases at a time.
fn job_from(process: Process, p: usize, time: u32) -> Job
    requires { GoodProcess process × (p < 12) × (time ≤ 2000) }
    ensures { result ≡ job_from process time p }
{
    Job {
        process: p as u32,
        release: time,
        deadline: time + process.deadline,
        budget: process.budget,
    }
}

// Puts the jobs of the processes that release at a time into the table, one after another.
fn put_released(
    processes: &[Process],
    first: &[u64; 12],
    time: u32,
    released: u64,
    table: &mut Jobs,
)
    requires good { GoodProcesses (length processes.now) processes.now × (time ≤ 2000) }
    requires released { ReleasedAt (length processes.now) processes.now time released }
    requires held { HoldsJobs (sequence_to processes.now (word_relation (length processes.now) first.now) time) table.old }
    requires room { length (sequence_to processes.now (word_relation (length processes.now) first.now) (time + 1)) ≤ 128 }
    ensures { HoldsJobs (sequence_to processes.now (word_relation (length processes.now) first.now) (time + 1)) table.new }
{
    let mut pending = released;
    while let Some(p) = next_free(pending, first) {
        let process = processes[p];
        let end = table.count + process.burst as usize;
        table.jobs[table.count..end].fill(job_from(process, p, time));
        table.count = end;
        pending = without_digit(pending, p);
    }
}

// The jobs of a frame of the processes in sequence. Row a of `ahead` marks each process that a comes before.
pub fn sequence(processes: &[Process], ahead: &[Row], frame: u32) -> Jobs
    requires fits { FitsTable (length processes.now) processes.now ahead.now frame }
    requires sizes { length ahead.now ≡ length processes.now }
    ensures { HoldsJobs (sequence_to processes.now (row_relation (length processes.now) ahead.now) frame) result }
{
    let first = first_words(ahead);
    let mut due = [0; 12];
    let mut table = Jobs {
        count: 0,
        jobs: [NO_JOB; 128],
    };
    let mut time = 0;
    while time < frame {
        let released = released_at(processes, time, frame, &mut due);
        put_released(processes, &first, time, released.pending, &mut table);
        time = released.next;
    }
    table
}
