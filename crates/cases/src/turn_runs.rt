// Turn runs: complete ones, unfair ones, jobs under way at the end, and refusals. Words that are not filled stay 9.
ghost use Rattle.std.specs.Prelude.{◌≤◌};

use crate::k::{EACH, INPUT, INPUTS, PLAN};
use shown::{K, turn_runs};
use std::io;

pub fn run(rt: &impl Print) -> io::Result<()> {
    whole_frames(rt)?;
    two_frames(rt)?;
    processors(rt)?;
    under_way(rt)?;
    no_actions(rt)?;
    ranges(rt)?;
    empty_file(rt)?;
    short_words(rt)?;
    short_output(rt)?;
    bad_words(rt)
}

fn whole_frames(rt: &impl Print) -> io::Result<()> {
    of_k(rt, "no turns at all", 1, 1, &PLAN, &INPUT, &[])?;
    let label = "the turns of one frame of K";
    into::<10>(rt, label, &K, 1, 1, &PLAN, &INPUT, &[0; 15])?;
    let label = "two turns after the last frame";
    of_k(rt, label, 1, 1, &PLAN, &INPUT, &[0; 17])
}

fn two_frames(rt: &impl Print) -> io::Result<()> {
    frames_of_k(rt, "the turns of two frames of K", &[0; 28])?;
    frames_of_k(rt, "one turn less", &[0; 27])
}

fn processors(rt: &impl Print) -> io::Result<()> {
    let in_turn = [
        3u32, 2, 1, 0, 3, 2, 1, 0, 3, 2, 1, 0, 3, 2, 1, 0, 3, 2, 1, 0, 3, 2, 1, 0, 3, 2, 1, 0, 3,
        2, 1, 0,
    ];
    of_k(
        rt,
        "K on four processors, in turn",
        4,
        1,
        &EACH,
        &INPUT,
        &in_turn,
    )?;
    let idle = [1u32, 0, 1, 0, 1, 0, 1, 0, 1, 0, 1, 0, 1, 0, 1, 0];
    of_k(rt, "a processor without jobs", 2, 1, &PLAN, &INPUT, &idle)?;
    let unfair = [1u32, 1, 1];
    of_k(
        rt,
        "no turn of the processor with work",
        2,
        1,
        &PLAN,
        &INPUT,
        &unfair,
    )
}

fn under_way(rt: &impl Print) -> io::Result<()> {
    let label = "a job under way at the end";
    of_k(rt, label, 1, 1, &PLAN, &INPUT, &[0; 3])?;
    of_one_job(rt, "a job under way that has output", &[0; 3])?;
    of_one_job(rt, "the same job, finished", &[0; 4])
}

fn no_actions(rt: &impl Print) -> io::Result<()> {
    let file = b"\x01\x02\x0A\x01\x0A\x01\x0A\x01\x0A\x01\x00\x00\x00\x00";
    let apart = [0u32, 0, 1, 0];
    into::<8>(
        rt,
        "jobs without actions",
        file,
        2,
        2,
        &apart,
        &[0; 8],
        &[0, 1, 1],
    )
}

fn ranges(rt: &impl Print) -> io::Result<()> {
    of_k(rt, "turns of 0 processors", 0, 1, &PLAN, &INPUT, &[0])?;
    of_k(rt, "turns of 5 processors", 5, 1, &PLAN, &INPUT, &[0])?;
    of_k(rt, "turns for 0 frames", 1, 0, &PLAN, &INPUT, &[0])?;
    of_k(rt, "turns for 101 frames", 1, 101, &PLAN, &INPUT, &[0])
}

fn empty_file(rt: &impl Print) -> io::Result<()> {
    into::<8>(rt, "turns of an empty file", b"", 1, 1, &PLAN, &INPUT, &[0])
}

fn short_words(rt: &impl Print) -> io::Result<()> {
    let short = [9u32; 7];
    of_k(
        rt,
        "turns with a plan one word short",
        1,
        1,
        &short,
        &INPUT,
        &[0],
    )?;
    of_k(
        rt,
        "turns with input one word short",
        1,
        1,
        &PLAN,
        &short,
        &[0],
    )
}

fn short_output(rt: &impl Print) -> io::Result<()> {
    let label = "turns with output one word short";
    into::<7>(rt, label, &K, 1, 1, &PLAN, &INPUT, &[0])
}

// The plan is judged before the samples, and the samples before the turns.
fn bad_words(rt: &impl Print) -> io::Result<()> {
    let plan = [0u32, 0, 0, 2, 0, 7, 0, 13];
    let input = [1u32, 42, 0, 5, 0, 0, 2, 0];
    let turns = [0u32, 1, 2, 0];
    of_k(
        rt,
        "a bad plan, sample and turn",
        2,
        1,
        &plan,
        &input,
        &turns,
    )?;
    of_k(rt, "a bad sample and turn", 2, 1, &PLAN, &input, &turns)?;
    of_k(rt, "a bad turn", 2, 1, &PLAN, &INPUT, &turns)
}

// Turns of network K, with room for the output of one frame.
fn of_k(
    rt: &impl Print,
    label: &str,
    processors: u32,
    frames: u32,
    plan: &[u32],
    input: &[u32],
    list: &[u32],
) -> io::Result<()> {
    into::<8>(rt, label, &K, processors, frames, plan, input, list)
}

// Two frames of network K on one processor.
fn frames_of_k(rt: &impl Print, label: &str, list: &[u32]) -> io::Result<()> {
    into::<16>(rt, label, &K, 1, 2, &PLAN, &INPUTS, list)
}

// One process, whose job outputs before its last action.
fn of_one_job(rt: &impl Print, label: &str, list: &[u32]) -> io::Result<()> {
    let file =
        b"\x01\x01\x0A\x01\x0A\x01\x00\x00\x03\x00\x00\x05\x00\x06\x00\x00\x00\x00\x01\x07\x00";
    into::<2>(rt, label, file, 1, 1, &[0, 0], &[0, 0], list)
}

// A turn run into N lent words.
fn into<const N: usize>(
    rt: &impl Print,
    label: &str,
    file: &[u8],
    processors: u32,
    frames: u32,
    plan: &[u32],
    input: &[u32],
    list: &[u32],
) -> io::Result<()>
    requires { N ≤ 4096 }
{
    let mut out = [9u32; N];
    turn_runs::show(
        rt, label, file, processors, frames, plan, input, list, &mut out,
    )
}
