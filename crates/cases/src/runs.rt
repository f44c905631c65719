// Zero-delay runs: what each action does, what channels hold, and what stays from frame to frame.
// Beside each file what its programs do: v0 to v7 are a process's variables.
ghost use Rattle.std.specs.Prelude.{◌≤◌};

use crate::k::{INPUT, INPUTS};
use shown::{K, ran};
use std::io;

pub fn run(rt: &impl Print) -> io::Result<()> {
    sums(rt)?;
    inputs(rt)?;
    outputs(rt)?;
    skips(rt)?;
    reads(rt)?;
    writes(rt)?;
    frames(rt)?;
    long_runs(rt)
}

// One process, one job.
fn sums(rt: &impl Print) -> io::Result<()> {
    // v0 becomes 1, v7 becomes 4294967295; outputs v7.
    one(
        rt,
        "set",
        b"\x01\x01\x0A\x01\x0A\x01\x00\x00\x03\x00\x00\x01\x00\x00\x07\xFF\xFF\xFF\xFF\x0F\x00\x06\x07\x00\x00",
        0,
        0,
    )?;
    // v0 becomes 4294967295, v1 becomes 5; v2 = v0 + v1, v3 = v1 + v1, v1 = v1 + v0; outputs v2.
    one(
        rt,
        "add past 2^32",
        b"\x01\x01\x0A\x01\x0A\x01\x00\x00\x06\x00\x00\xFF\xFF\xFF\xFF\x0F\x00\x00\x01\x05\x00\x01\x02\x00\x01\x01\x03\x01\x01\x01\x01\x01\x00\x06\x02\x00\x00",
        0,
        0,
    )?;
    // v0 becomes 5, v1 becomes 7; v2 = v0 - v1, v3 = v1 - v0, v4 = v5 - v0, v0 = v0 - v0; outputs v2.
    one(
        rt,
        "subtract below 0",
        b"\x01\x01\x0A\x01\x0A\x01\x00\x00\x07\x00\x00\x05\x00\x00\x01\x07\x00\x02\x02\x00\x01\x02\x03\x01\x00\x02\x04\x05\x00\x02\x00\x00\x00\x06\x02\x00\x00",
        0,
        0,
    )
}

fn inputs(rt: &impl Print) -> io::Result<()> {
    // v0 and v1 become 9; input to v0, its flag to v1; outputs v0.
    let apart =
        *b"\x01\x01\x0A\x01\x0A\x01\x00\x00\x04\x00\x00\x09\x00\x00\x01\x09\x00\x05\x00\x01\x00\x06\x00\x00\x00";
    one(rt, "input present", &apart, 1, 42)?;
    one(rt, "input not present", &apart, 0, 0)?;
    // v0 becomes 9; input to v0, its flag to v0 too; outputs v0.
    let same =
        *b"\x01\x01\x0A\x01\x0A\x01\x00\x00\x03\x00\x00\x09\x00\x05\x00\x00\x00\x06\x00\x00\x00";
    one(rt, "input to one variable, present", &same, 1, 42)?;
    one(rt, "input to one variable, not present", &same, 0, 0)?;
    // Input to v0, its flag to v1; v2 = v2 + v0; outputs v2.
    let samples = [1u32, 1, 1, 2, 1, 3, 1, 4, 1, 5, 1, 6];
    into::<12>(
        rt,
        "a burst of 3 for 2 frames",
        b"\x01\x01\x0A\x03\x0A\x01\x00\x00\x03\x05\x00\x01\x00\x01\x02\x02\x00\x06\x02\x00\x00",
        2,
        &samples,
    )
}

fn outputs(rt: &impl Print) -> io::Result<()> {
    // v0 becomes 3; outputs v0; v0 becomes 4; outputs v0; v0 becomes 5.
    one(
        rt,
        "output twice",
        b"\x01\x01\x0A\x01\x0A\x01\x00\x00\x05\x00\x00\x03\x00\x06\x00\x00\x00\x00\x00\x04\x00\x06\x00\x00\x00\x00\x00\x05\x00",
        0,
        0,
    )?;
    // v0 becomes 3.
    one(
        rt,
        "no output",
        b"\x01\x01\x0A\x01\x0A\x01\x00\x00\x01\x00\x00\x03\x00",
        0,
        0,
    )?;
    one(
        rt,
        "no actions",
        b"\x01\x01\x0A\x01\x0A\x01\x00\x00\x00",
        1,
        42,
    )
}

fn skips(rt: &impl Print) -> io::Result<()> {
    // If v0 is zero skips 1; v2 becomes 7; v3 becomes 8; outputs v3.
    one(
        rt,
        "skip taken",
        b"\x01\x01\x0A\x01\x0A\x01\x00\x00\x04\x07\x00\x01\x00\x00\x02\x07\x00\x00\x03\x08\x00\x06\x03\x00\x00",
        0,
        0,
    )?;
    // The same after v0 becomes 2.
    one(
        rt,
        "skip not taken",
        b"\x01\x01\x0A\x01\x0A\x01\x00\x00\x05\x00\x00\x02\x00\x07\x00\x01\x00\x00\x02\x07\x00\x00\x03\x08\x00\x06\x03\x00\x00",
        0,
        0,
    )?;
    // v1 becomes 6; outputs v1; if v0 is zero skips 2; v1 becomes 7; outputs v1.
    one(
        rt,
        "skip to the end taken",
        b"\x01\x01\x0A\x01\x0A\x01\x00\x00\x05\x00\x01\x06\x00\x06\x01\x00\x00\x07\x00\x02\x00\x00\x01\x07\x00\x06\x01\x00\x00",
        0,
        0,
    )?;
    // The same, but if v1 is zero.
    one(
        rt,
        "skip to the end not taken",
        b"\x01\x01\x0A\x01\x0A\x01\x00\x00\x05\x00\x01\x06\x00\x06\x01\x00\x00\x07\x01\x02\x00\x00\x01\x07\x00\x06\x01\x00\x00",
        0,
        0,
    )
}

// Channel 0 is a queue of 2 and channel 1 a board, both from process 0 to process 1, which comes after it.
fn reads(rt: &impl Print) -> io::Result<()> {
    // Process 0 writes 5 and 6 to the queue; process 1 reads it to v0, the flag to v1, and outputs v0.
    two(
        rt,
        "read of a queue",
        b"\x01\x02\x0A\x01\x0A\x01\x0A\x01\x0A\x01\x01\x00\x01\x02\x00\x00\x01\x02\x01\x00\x01\x01\x04\x00\x00\x05\x00\x04\x00\x00\x00\x00\x00\x06\x00\x04\x00\x00\x00\x02\x03\x00\x00\x01\x06\x00\x00\x00",
    )?;
    // Process 0 writes 5 and 6 to the board; process 1 reads it to v0 and v1 and again to v2 and v3, and outputs v0.
    two(
        rt,
        "read of a board",
        b"\x01\x02\x0A\x01\x0A\x01\x0A\x01\x0A\x01\x01\x00\x01\x02\x00\x00\x01\x02\x01\x00\x01\x01\x04\x00\x00\x05\x00\x04\x01\x00\x00\x00\x00\x06\x00\x04\x01\x00\x00\x03\x03\x01\x00\x01\x03\x01\x02\x03\x06\x00\x00\x00",
    )?;
    // Process 0 does nothing; in process 1, v0 to v3 become 9; it reads the queue to v0 and v1, the board to v2 and v3, and outputs v0.
    two(
        rt,
        "empty reads",
        b"\x01\x02\x0A\x01\x0A\x01\x0A\x01\x0A\x01\x01\x00\x01\x02\x00\x00\x01\x02\x01\x00\x01\x01\x00\x07\x00\x00\x09\x00\x00\x01\x09\x00\x00\x02\x09\x00\x00\x03\x09\x00\x03\x00\x00\x01\x03\x01\x02\x03\x06\x00\x00\x00",
    )?;
    // Process 0 writes 5 to both; process 1 reads the queue to v0 and v0, the board to v1 and v1; v2 becomes 9; it reads the queue to v2 and v2, and outputs v0.
    two(
        rt,
        "reads to one variable",
        b"\x01\x02\x0A\x01\x0A\x01\x0A\x01\x0A\x01\x01\x00\x01\x02\x00\x00\x01\x02\x01\x00\x01\x01\x03\x00\x00\x05\x00\x04\x00\x00\x00\x04\x01\x00\x00\x05\x03\x00\x00\x00\x03\x01\x01\x01\x00\x02\x09\x00\x03\x00\x02\x02\x06\x00\x00\x00",
    )
}

fn writes(rt: &impl Print) -> io::Result<()> {
    // Process 0 writes 5, 6 and 7 to one of them; process 1 does nothing.
    two(
        rt,
        "a queue of 2 written three times",
        b"\x01\x02\x0A\x01\x0A\x01\x0A\x01\x0A\x01\x01\x00\x01\x02\x00\x00\x01\x02\x01\x00\x01\x01\x06\x00\x00\x05\x00\x04\x00\x00\x00\x00\x00\x06\x00\x04\x00\x00\x00\x00\x00\x07\x00\x04\x00\x00\x00\x00",
    )?;
    two(
        rt,
        "a board written three times",
        b"\x01\x02\x0A\x01\x0A\x01\x0A\x01\x0A\x01\x01\x00\x01\x02\x00\x00\x01\x02\x01\x00\x01\x01\x06\x00\x00\x05\x00\x04\x01\x00\x00\x00\x00\x06\x00\x04\x01\x00\x00\x00\x00\x07\x00\x04\x01\x00\x00\x00",
    )
}

fn frames(rt: &impl Print) -> io::Result<()> {
    // Process 1 comes first: it reads the queue to v0 and v1, the board to v2 and v3; v4 = v4 + v1; it outputs v2.
    // Process 0: v1 becomes 1; v0 = v0 + v1; it writes v0 to both and outputs it.
    let kept =
        *b"\x01\x02\x0A\x01\x0A\x01\x0A\x01\x0A\x01\x01\x01\x00\x02\x00\x00\x01\x02\x01\x00\x01\x01\x05\x00\x01\x01\x00\x01\x00\x00\x01\x04\x00\x00\x00\x04\x01\x00\x00\x06\x00\x00\x00\x04\x03\x00\x00\x01\x03\x01\x02\x03\x01\x04\x04\x01\x06\x02\x00\x00";
    into::<12>(rt, "kept from frame to frame", &kept, 3, &[0; 12])?;
    into::<8>(rt, "K for 1 frame", &K, 1, &INPUT)?;
    into::<16>(rt, "K for 2 frames", &K, 2, &INPUTS)
}

fn long_runs(rt: &impl Print) -> io::Result<()> {
    let mut input = [0u32; 800];
    input[..8].copy_from_slice(&INPUT);
    into::<800>(rt, "K for 100 frames", &K, 100, &input)?;
    input[792] = 1;
    input[793] = 7;
    into::<800>(
        rt,
        "K for 100 frames, with input in the last",
        &K,
        100,
        &input,
    )?;
    // A queue of 3. Process 0 adds 1 to v0 and writes it, twice; process 1 reads the queue to v0 and v1, and outputs v0.
    let round =
        *b"\x01\x02\x0A\x01\x0A\x01\x0A\x01\x0A\x01\x01\x00\x01\x01\x00\x00\x01\x03\x05\x00\x01\x01\x00\x01\x00\x00\x01\x04\x00\x00\x00\x01\x00\x00\x01\x04\x00\x00\x00\x02\x03\x00\x00\x01\x06\x00\x00\x00";
    two(rt, "twice written and once read for 1 frame", &round)?;
    into::<400>(
        rt,
        "twice written and once read for 100 frames",
        &round,
        100,
        &[0; 400],
    )
}

// One frame of one job, with this sample.
fn one(rt: &impl Print, label: &str, file: &[u8], present: u32, value: u32) -> io::Result<()> {
    into::<2>(rt, label, file, 1, &[present, value])
}

// One frame of two jobs, with no input.
fn two(rt: &impl Print, label: &str, file: &[u8]) -> io::Result<()> {
    into::<4>(rt, label, file, 1, &[0; 4])
}

// A run into N lent words.
pub fn into<const N: usize>(
    rt: &impl Print,
    label: &str,
    file: &[u8],
    frames: u32,
    input: &[u32],
) -> io::Result<()>
    requires { N ≤ 4096 }
{
    ran::show(rt, label, file, frames, input, &mut [9u32; N])
}
