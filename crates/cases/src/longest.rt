// The longest file: 12 processes, 66 pairs, 16 channels and 24 actions each, every number as long as it can be.
use network::{Channel, Network, Pair, Process};
use shown::files;
use std::{array, io};

pub fn run(rt: &impl Print) -> io::Result<()> {
    let mut file = [0u8; 2600];
    files::write(
        rt,
        "the longest network into 2600 bytes",
        longest(),
        &mut file,
    )?;
    files::read(rt, "the longest file", &file)
}

fn longest() -> Network {
    let processes = [Process {
        period: 1000,
        burst: 1,
        deadline: 1000,
        budget: 128,
    }; 12];
    let channels = [Channel {
        kind: 0,
        writer: 0,
        reader: 1,
        capacity: 8,
    }; 16];
    let pairs = all_pairs();
    let actions = all_actions();
    Network {
        process_count: 12,
        processes,
        pair_count: 66,
        pairs,
        channel_count: 16,
        channels,
        action_counts: [24; 12],
        actions,
    }
}

// Each process before all that have a higher number.
fn all_pairs() -> [Pair; 66] {
    let mut pairs = [Pair {
        higher: 0,
        lower: 0,
    }; 66];
    let mut higher = 0;
    let mut lower = 1;
    for pair in &mut pairs {
        *pair = Pair { higher, lower };
        if lower < 11 {
            lower += 1;
        } else {
            higher = (higher + 1) % 12;
            lower = (higher + 1) % 12;
        }
    }
    pairs
}

// Variable 7 becomes 4,294,967,295, over and over.
fn all_actions() -> [u32; 1152] {
    array::from_fn(|i| match i % 4 {
        1 => 7,
        2 => u32::MAX,
        _ => 0,
    })
}
