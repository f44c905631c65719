// Frames and graphs of network files: the jobs in sequence, the edges that stay, and what precedes a job.
use shown::{K, graphs};
use std::io;

pub fn run(rt: &impl Print) -> io::Result<()> {
    whole_files(rt)?;
    bursts(rt)?;
    chains(rt)?;
    forks(rt)?;
    paths(rt)?;
    full_tables(rt)?;
    long_frames(rt)
}

fn whole_files(rt: &impl Print) -> io::Result<()> {
    graphs::show(rt, "the graph of an empty file", b"")?;
    graphs::show(rt, "the graph of network K", &K)?;
    graphs::show_job(rt, "network K", &K, 3)?;
    graphs::show_job(rt, "an empty file", b"", 0)
}

fn bursts(rt: &impl Print) -> io::Result<()> {
    graphs::show(
        rt,
        "a burst of 3, and a process ahead of it",
        b"\x01\x02\x0A\x03\x0A\x01\x0A\x01\x0A\x01\x01\x01\x00\x00\x00\x00",
    )?;
    // Process 0 waits for process 2, and process 1 for none.
    graphs::show(
        rt,
        "bursts of 2, 1 and 3, the last ahead of the first",
        b"\x01\x03\x0A\x02\x0A\x01\x0A\x01\x0A\x01\x0A\x03\x0A\x01\x01\x02\x00\x00\x00\x00\x00",
    )?;
    graphs::show(
        rt,
        "bursts of 3 and 2, the second twice in the frame",
        b"\x01\x02\x0A\x03\x0A\x01\x05\x02\x05\x01\x01\x01\x00\x00\x00\x00",
    )
}

// Pairs 2-1 and 1-0. At 10 process 1 releases nothing, and 2 still comes before 0.
fn chains(rt: &impl Print) -> io::Result<()> {
    let file =
        *b"\x01\x03\x0A\x01\x0A\x01\x14\x01\x14\x01\x0A\x01\x0A\x01\x02\x02\x01\x01\x00\x00\x00\x00\x00";
    graphs::show(rt, "a chain through a process that is absent at 10", &file)?;
    graphs::show_job(rt, "that network", &file, 4)
}

// Pairs 0-1 and 0-2 do not relate 1 to 2.
fn forks(rt: &impl Print) -> io::Result<()> {
    let once =
        *b"\x01\x03\x0A\x01\x0A\x01\x0A\x01\x0A\x01\x0A\x01\x0A\x01\x02\x00\x01\x00\x02\x00\x00\x00\x00";
    graphs::show(rt, "two processes after one", &once)?;
    graphs::show_job(rt, "that network", &once, 2)?;
    // Job 1 does not precede job 6, though a path leads there by job 4.
    let twice =
        *b"\x01\x04\x0A\x01\x09\x01\x0A\x01\x08\x02\x0A\x01\x07\x03\x14\x01\x14\x01\x02\x00\x01\x00\x02\x00\x00\x00\x00\x00";
    graphs::show(rt, "two processes after one, twice", &twice)?;
    graphs::show_job(rt, "that network", &twice, 6)
}

// Pairs 0-1, 0-2, 3-1 and 3-2. Job 8 precedes job 11, and no job is between the two in the relation; but a path leads by jobs 9 and 10.
fn paths(rt: &impl Print) -> io::Result<()> {
    let file =
        *b"\x01\x04\x1E\x01\x1E\x01\x14\x01\x14\x01\x0F\x01\x0F\x01\x0C\x01\x0C\x01\x04\x00\x01\x00\x02\x03\x01\x03\x02\x00\x00\x00\x00\x00";
    graphs::show(rt, "an edge that gives way to a path of three", &file)?;
    graphs::show_job(rt, "that network", &file, 11)
}

fn full_tables(rt: &impl Print) -> io::Result<()> {
    graphs::show(
        rt,
        "periods 31 and 1, bursts of 4, one chain",
        b"\x01\x02\x1F\x04\x1F\x01\x01\x04\x01\x01\x01\x01\x00\x00\x00\x00",
    )?;
    graphs::show(
        rt,
        "periods 31 and 1, bursts of 4, unrelated",
        b"\x01\x02\x1F\x04\x1F\x01\x01\x04\x01\x01\x00\x00\x00\x00",
    )?;
    graphs::show(
        rt,
        "periods 32 and 1: 129 jobs",
        b"\x01\x02\x20\x01\x20\x01\x01\x04\x01\x01\x00\x00\x00\x00",
    )
}

fn long_frames(rt: &impl Print) -> io::Result<()> {
    graphs::show(
        rt,
        "periods 1000 and 80, one chain",
        b"\x01\x02\xE8\x07\x01\xE8\x07\x01\x50\x01\x50\x01\x01\x00\x01\x00\x00\x00",
    )?;
    graphs::show(
        rt,
        "periods 667 and 87: a frame of 2001",
        b"\x01\x02\x9B\x05\x01\x9B\x05\x01\x57\x01\x57\x01\x00\x00\x00\x00",
    )?;
    graphs::show(
        rt,
        "periods 999 and 1000",
        b"\x01\x02\xE7\x07\x01\xE7\x07\x01\xE8\x07\x01\xE8\x07\x01\x00\x00\x00\x00",
    )
}
