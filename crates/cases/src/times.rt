// Timed runs of network files on plans, with a duration for each job. Words that are not filled stay 9.
ghost use Rattle.std.specs.Prelude.{◌≤◌};

use crate::k::PLAN;
use shown::{K, times};
use std::io;

pub fn run(rt: &impl Print) -> io::Result<()> {
    longer_output(rt)?;
    times_of_k(rt)?;
    long_durations(rt)?;
    other_order(rt)?;
    faulty_plans(rt)?;
    ranges(rt)?;
    empty_files(rt)?;
    short_words(rt)?;
    short_output(rt)
}

fn longer_output(rt: &impl Print) -> io::Result<()> {
    into::<10>(rt, "K timed 1, 4, 6, 4", &K, 2, &PLAN, &[1, 4, 6, 4])
}

fn times_of_k(rt: &impl Print) -> io::Result<()> {
    let none = [0u32; 4];
    of_k(rt, "K timed 0, 0, 0, 0", 2, &PLAN, &none)?;
    let full = [3u32, 4, 6, 4];
    of_k(rt, "K timed at its budgets", 2, &PLAN, &full)?;
    let late = [0u32, 0, 0, 3, 1, 7, 2, 16];
    of_k(rt, "K timed on a plan for 3 processors", 4, &late, &full)?;
    let beyond = [0u32, 1, 0, 1, 99, 99];
    of_k(
        rt,
        "K timed 0, 1, 0, 1 and words beyond them",
        1,
        &PLAN,
        &beyond,
    )
}

fn long_durations(rt: &impl Print) -> io::Result<()> {
    let first = [4u32, 4, 6, 4];
    of_k(rt, "K with job 0 too long", 2, &PLAN, &first)?;
    let last = [3u32, 4, 6, 5];
    of_k(rt, "K with job 3 too long", 2, &PLAN, &last)?;
    let two = [3u32, 4, 7, u32::MAX];
    of_k(rt, "K with jobs 2 and 3 too long", 2, &PLAN, &two)
}

// Job 1 is planned before job 0 on their processor, and job 2 after both.
fn other_order(rt: &impl Print) -> io::Result<()> {
    let plan = [0u32, 1, 0, 0, 0, 11];
    let full = [10u32, 1, 1];
    of_long_job(rt, "a long job after a short one", 1, &plan, &full)?;
    let short = [3u32, 0, 1];
    of_long_job(
        rt,
        "a long job after a short one, both early",
        1,
        &plan,
        &short,
    )?;
    let apart = [0u32, 0, 1, 0, 1, 11];
    of_long_job(rt, "a long job beside short ones", 2, &apart, &full)
}

// A faulty plan is told before a duration that is too long.
fn faulty_plans(rt: &impl Print) -> io::Result<()> {
    let durations = [99u32; 4];
    let over = [0u32, 0, 0, 2, 0, 7, 0, 13];
    of_k(rt, "K timed with an overlap", 2, &over, &durations)?;
    let soon = [0u32, 0, 1, 2, 0, 7, 0, 13];
    of_k(rt, "K timed with a start too soon", 2, &soon, &durations)?;
    let above = [0u32, 0, 0, 3, 0, 7, 1, 13];
    of_k(rt, "K timed on processor 1 of 1", 1, &above, &durations)
}

fn ranges(rt: &impl Print) -> io::Result<()> {
    let durations = [1u32, 4, 6, 4];
    of_k(rt, "K timed on 0 processors", 0, &PLAN, &durations)?;
    of_k(rt, "K timed on 5 processors", 5, &PLAN, &durations)
}

fn empty_files(rt: &impl Print) -> io::Result<()> {
    let durations = [1u32, 4, 6, 4];
    into::<8>(
        rt,
        "an empty file timed on 5 processors",
        b"",
        5,
        &PLAN,
        &durations,
    )?;
    into::<8>(rt, "an empty file timed", b"", 1, &PLAN, &durations)
}

fn short_words(rt: &impl Print) -> io::Result<()> {
    let durations = [9u32, 4, 6, 4];
    of_k(
        rt,
        "K timed with a plan one word short",
        2,
        &PLAN[..7],
        &durations,
    )?;
    of_k(
        rt,
        "K timed with a duration missing",
        2,
        &PLAN,
        &durations[..3],
    )
}

fn short_output(rt: &impl Print) -> io::Result<()> {
    let label = "K timed with one word too few for the times";
    into::<7>(rt, label, &K, 2, &PLAN, &[9, 4, 6, 4])
}

// A timed run of network K.
fn of_k(
    rt: &impl Print,
    label: &str,
    processors: u32,
    plan: &[u32],
    durations: &[u32],
) -> io::Result<()> {
    into::<8>(rt, label, &K, processors, plan, durations)
}

// A timed run of a long job and a short one that is released twice.
fn of_long_job(
    rt: &impl Print,
    label: &str,
    processors: u32,
    plan: &[u32],
    durations: &[u32],
) -> io::Result<()> {
    let file = b"\x01\x02\x14\x01\x14\x0A\x0A\x01\x05\x01\x00\x00\x00\x00";
    into::<6>(rt, label, file, processors, plan, durations)
}

// A timed run into N lent words.
fn into<const N: usize>(
    rt: &impl Print,
    label: &str,
    file: &[u8],
    processors: u32,
    plan: &[u32],
    durations: &[u32],
) -> io::Result<()>
    requires { N ≤ 4096 }
{
    times::show(rt, label, file, processors, plan, durations, &mut [9u32; N])
}
