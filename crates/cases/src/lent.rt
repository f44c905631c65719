// Runs of network K, four jobs a frame, that are refused, and runs with more lent than they need.
// Where nothing is filled, the output words stay 9.
use crate::k;
use crate::k::{INPUT, INPUTS};
use crate::runs::into;
use shown::K;
use std::io;

pub fn run(rt: &impl Print) -> io::Result<()> {
    samples(rt)?;
    beyond(rt)?;
    short_input(rt)?;
    short_output(rt)?;
    frames(rt)?;
    broken(rt)
}

fn samples(rt: &impl Print) -> io::Result<()> {
    let present = [0u32, 0, 0, 0, 0, 0, 0, 0, 0, 0, 0, 0, 0, 0, 2, 0];
    into::<16>(rt, "present 2 in the last sample", &K, 2, &present)?;
    let value = [0u32, 0, 0, 0, 0, 0, 0, 0, 0, 0, 0, 0, 0, 0, 0, 5];
    into::<16>(
        rt,
        "a value without present in the last sample",
        &K,
        2,
        &value,
    )?;
    let two = [0u32, 1, 0, 0, 0, 0, 0, 0, 0, 0, 2, 0, 0, 0, 0, 0];
    into::<16>(rt, "sample 0 and a later one", &K, 2, &two)
}

// Words that the run does not look at, and words that it does not fill.
fn beyond(rt: &impl Print) -> io::Result<()> {
    let sample = [1u32, 42, 0, 0, 0, 0, 0, 0, 2, 5];
    into::<8>(rt, "a bad sample beyond the frames", &K, 1, &sample)?;
    into::<8>(rt, "a bad word beyond the frames", &K, 1, &sample[..9])?;
    into::<10>(rt, "output longer than the frames", &K, 1, &INPUT)
}

fn short_input(rt: &impl Print) -> io::Result<()> {
    into::<8>(rt, "input one word short", &K, 1, &INPUT[..7])?;
    into::<16>(rt, "input one word short of 2 frames", &K, 2, &INPUTS[..15])
}

fn short_output(rt: &impl Print) -> io::Result<()> {
    into::<7>(rt, "output one word short", &K, 1, &INPUT)?;
    into::<15>(rt, "output one word short of 2 frames", &K, 2, &INPUTS)?;
    let bad = [2u32, 42, 0, 0, 0, 0, 0, 0];
    into::<7>(rt, "output one word short and a bad sample", &K, 1, &bad)
}

// The number of frames is judged before the file.
fn frames(rt: &impl Print) -> io::Result<()> {
    into::<1>(rt, "0 frames of an empty file", b"", 0, &[0])?;
    into::<1>(rt, "101 frames of an empty file", b"", 101, &[0])?;
    into::<8>(rt, "0 frames of K", &K, 0, &INPUT)?;
    into::<8>(rt, "101 frames of K", &K, 101, &INPUT)
}

// The file is judged before what is lent.
fn broken(rt: &impl Print) -> io::Result<()> {
    into::<1>(rt, "1 frame of an empty file", b"", 1, &[0])?;
    let past = k::with(35, 2);
    into::<1>(
        rt,
        "100 frames of K with a skip past the end",
        &past,
        100,
        &[0],
    )
}
