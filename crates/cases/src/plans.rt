// Plans of network files, made by the planner or given to the checker. Words that are not filled stay 9.
ghost use Rattle.std.specs.Prelude.{◌≤◌};

use crate::k::{EACH, PLAN};
use shown::{K, plans};
use std::io;

pub fn run(rt: &impl Print) -> io::Result<()> {
    plans_of_k(rt)?;
    checks_of_k(rt)?;
    wrong_words(rt)?;
    plan_ranges(rt)?;
    check_ranges(rt)?;
    short_words(rt)?;
    missed_deadlines(rt)?;
    long_job(rt)?;
    first_faults(rt)
}

fn plans_of_k(rt: &impl Print) -> io::Result<()> {
    into::<8>(rt, "the plan of K for 1 processor", &K, 1)?;
    into::<10>(rt, "the plan of K for 2 processors", &K, 2)?;
    into::<8>(rt, "the plan of K for 4 processors", &K, 4)
}

fn checks_of_k(rt: &impl Print) -> io::Result<()> {
    check_k(rt, "K's own plan", 1, &PLAN)?;
    let late = [0u32, 0, 0, 3, 0, 7, 0, 16];
    check_k(rt, "K with job 3 at 16", 1, &late)?;
    check_k(rt, "K with each job on its own processor", 4, &EACH)?;
    check_k(rt, "K with job 3 on processor 3 of 3", 3, &EACH)
}

fn wrong_words(rt: &impl Print) -> io::Result<()> {
    let early = [0u32, 0, 0, 3, 0, 7, 1, 9];
    check_k(rt, "K with job 3 before its release", 2, &early)?;
    let last = [0u32, 0, 0, 3, 0, 7, 0, u32::MAX];
    check_k(rt, "K with job 3 at the greatest number", 1, &last)?;
    let wrong = [u32::MAX, u32::MAX, 0, 3, 0, 7, 0, 13];
    check_k(rt, "K with job 0 wrong in every way", 1, &wrong)?;
    let beyond = [0u32, 0, 0, 3, 0, 7, 0, 13, 9, 9];
    check_k(rt, "K's own plan and words beyond it", 1, &beyond)
}

fn plan_ranges(rt: &impl Print) -> io::Result<()> {
    into::<8>(rt, "a plan for 0 processors", &K, 0)?;
    into::<8>(rt, "a plan for 5 processors", &K, 5)?;
    into::<8>(rt, "a plan of an empty file for 5 processors", b"", 5)?;
    into::<8>(rt, "a plan of an empty file", b"", 1)
}

fn check_ranges(rt: &impl Print) -> io::Result<()> {
    check_k(rt, "a check for 0 processors", 0, &PLAN)?;
    check_k(rt, "a check for 5 processors", 5, &PLAN)?;
    plans::show_check(rt, "a check of an empty file", b"", 4, &PLAN)
}

fn short_words(rt: &impl Print) -> io::Result<()> {
    into::<7>(rt, "a plan with one word too few", &K, 2)?;
    let plan = [4u32, 0, 0, 3, 0, 7, 0];
    check_k(rt, "a check with one word too few", 2, &plan)
}

fn missed_deadlines(rt: &impl Print) -> io::Result<()> {
    let two = b"\x01\x02\x0A\x01\x0A\x06\x0A\x01\x0A\x06\x00\x00\x00\x00";
    into::<4>(rt, "two unrelated processes of budget 6", two, 1)?;
    into::<4>(rt, "two unrelated processes on 2 processors", two, 2)?;
    into::<3>(rt, "two unrelated processes and one word too few", two, 1)
}

fn long_job(rt: &impl Print) -> io::Result<()> {
    let long = b"\x01\x02\x14\x01\x14\x0A\x0A\x01\x05\x01\x00\x00\x00\x00";
    into::<6>(rt, "a long job and a short one", long, 1)?;
    let plan = [0u32, 1, 0, 0, 0, 11];
    plans::show_check(rt, "a long job and a short one, by hand", long, 1, &plan)
}

// Job 2 overlaps job 1 on its processor, and starts before job 0 ends, which precedes it. The last overlaps a job that is not its neighbour in the table.
fn first_faults(rt: &impl Print) -> io::Result<()> {
    let file =
        b"\x01\x03\x14\x01\x14\x0A\x14\x01\x14\x05\x14\x01\x14\x05\x01\x00\x02\x00\x00\x00\x00";
    let both = [0u32, 0, 1, 0, 1, 4];
    plans::show_check(rt, "budgets 10, 5 and 5, job 2 at 4", file, 2, &both)?;
    let soon = [0u32, 0, 1, 0, 1, 5];
    plans::show_check(rt, "budgets 10, 5 and 5, job 2 at 5", file, 2, &soon)?;
    let good = [0u32, 0, 1, 0, 1, 10];
    plans::show_check(rt, "budgets 10, 5 and 5, job 2 at 10", file, 2, &good)?;
    let far = [0u32, 0, 1, 0, 0, 4];
    plans::show_check(rt, "budgets 10, 5 and 5, job 2 over job 0", file, 2, &far)
}

// A plan into N lent words.
fn into<const N: usize>(
    rt: &impl Print,
    label: &str,
    file: &[u8],
    processors: u32,
) -> io::Result<()>
    requires { N ≤ 4096 }
{
    plans::show_plan(rt, label, file, processors, &mut [9u32; N])
}

// A check of a plan of network K.
fn check_k(rt: &impl Print, label: &str, processors: u32, plan: &[u32]) -> io::Result<()> {
    plans::show_check(rt, label, &K, processors, plan)
}
