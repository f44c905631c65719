// Network files, read and written: network K and small files, each at an edge of the rules.
ghost use Rattle.std.specs.Prelude.{◌≤◌};

use crate::{k, longest};
use network::Network;
use shown::{K, files};
use std::io;

pub fn run(rt: &impl Print) -> io::Result<()> {
    whole_files(rt)?;
    numbers(rt)?;
    pairs(rt)?;
    channels(rt)?;
    actions(rt)?;
    frames(rt)?;
    written(rt)?;
    longest::run(rt)
}

fn whole_files(rt: &impl Print) -> io::Result<()> {
    files::read(rt, "an empty file", b"")?;
    files::read(rt, "network K", &K)?;
    files::read(rt, "K and one byte", &k::and_a_byte())
}

fn numbers(rt: &impl Print) -> io::Result<()> {
    files::read(rt, "version 2", b"\x02")?;
    files::read(
        rt,
        "a deadline with a zero last group",
        b"\x01\x01\x0A\x01\x80\x00",
    )?;
    files::read(
        rt,
        "a file that ends in a budget",
        b"\x01\x01\x0A\x01\x0A\x80",
    )?;
    files::read(rt, "13 processes", b"\x01\x0D")?;
    files::read(
        rt,
        "a deadline beyond the period",
        b"\x01\x01\x0A\x01\x0B\x01",
    )
}

fn pairs(rt: &impl Print) -> io::Result<()> {
    files::read(
        rt,
        "a pair with a process that is not there",
        b"\x01\x02\x0A\x01\x0A\x01\x0A\x01\x0A\x01\x01\x00\x02",
    )?;
    files::read(
        rt,
        "a repeated pair",
        b"\x01\x02\x0A\x01\x0A\x01\x0A\x01\x0A\x01\x02\x00\x01\x00\x01",
    )?;
    // Not a repeated pair but a cycle, found before the channel count is missed.
    files::read(
        rt,
        "a reversed pair, and no channel count",
        b"\x01\x02\x0A\x01\x0A\x01\x0A\x01\x0A\x01\x02\x00\x01\x01\x00",
    )
}

fn channels(rt: &impl Print) -> io::Result<()> {
    // Its writer takes five bytes; the capacity is judged before the ends.
    files::read(
        rt,
        "capacity 9 after a five-byte end",
        b"\x01\x02\x0A\x01\x0A\x01\x0A\x01\x0A\x01\x01\x00\x01\x01\x00\xFF\xFF\xFF\xFF\x0F\x01\x09",
    )?;
    files::read(
        rt,
        "capacity 8 after a five-byte end",
        b"\x01\x02\x0A\x01\x0A\x01\x0A\x01\x0A\x01\x01\x00\x01\x01\x00\xFF\xFF\xFF\xFF\x0F\x01\x08",
    )?;
    files::read(
        rt,
        "a board with capacity 2",
        b"\x01\x02\x0A\x01\x0A\x01\x0A\x01\x0A\x01\x01\x00\x01\x01\x01\x00\x01\x02",
    )?;
    // Pairs 0-1 and 1-2; a chain leads from 0 to 2, but they have no pair of their own.
    files::read(
        rt,
        "a channel whose ends have only a chain",
        b"\x01\x03\x0A\x01\x0A\x01\x0A\x01\x0A\x01\x0A\x01\x0A\x01\x02\x00\x01\x01\x02\x01\x00\x00\x02\x01",
    )?;
    // A channel against the direction of its pair is a channel.
    files::read(
        rt,
        "a channel against its pair",
        b"\x01\x02\x0A\x01\x0A\x01\x0A\x01\x0A\x01\x01\x00\x01\x01\x00\x01\x00\x08\x00\x00",
    )
}

fn actions(rt: &impl Print) -> io::Result<()> {
    // K's own skips reach the very end.
    files::read(rt, "K with a skip one past the end", &k::with(35, 2))?;
    files::read(
        rt,
        "K with a read of a channel that the process writes",
        &k::with(43, 1),
    )?;
    files::read(rt, "K with a 1 for a 0 in its last action", &k::with(66, 1))?;
    files::read(rt, "K with an action 8", &k::with(63, 8))
}

fn frames(rt: &impl Print) -> io::Result<()> {
    // Refused before the pair count is missed.
    files::read(
        rt,
        "periods 999 and 1000, and no pair count",
        b"\x01\x02\xE7\x07\x01\x01\x01\xE8\x07\x01\x01\x01",
    )?;
    files::read(
        rt,
        "periods 1000 and 80: a frame of 2000",
        b"\x01\x02\xE8\x07\x01\x01\x01\x50\x01\x01\x01\x00\x00\x00\x00",
    )?;
    files::read(
        rt,
        "periods 33 and 1, burst 4: 133 jobs",
        b"\x01\x02\x21\x01\x01\x01\x01\x04\x01\x01",
    )?;
    files::read(
        rt,
        "period 1, burst 4: 4 jobs",
        b"\x01\x01\x01\x04\x01\x01\x00\x00\x00",
    )
}

// Network K as it is read and written again.
fn written(rt: &impl Print) -> io::Result<()> {
    let net = reader::read(&K).network;
    lengths(rt, net)?;
    garbage(rt, net)?;
    refused(rt, net)
}

fn lengths(rt: &impl Print, net: Network) -> io::Result<()> {
    into::<67>(rt, "K into 67 bytes", net)?;
    into::<70>(rt, "K into 70 bytes", net)?;
    into::<66>(rt, "K into 66 bytes", net)
}

fn garbage(rt: &impl Print, net: Network) -> io::Result<()> {
    let mut past = net;
    past.processes[3].period = 7;
    past.pairs[2].lower = 7;
    past.channels[2].kind = 7;
    past.action_counts[3] = 7;
    past.actions[12] = 7;
    past.actions[1151] = 7;
    let mut same = [0xEEu8; 67];
    files::write(rt, "K with garbage past its counts", past, &mut same)?;
    if same == K {
        println!(rt; "which are the bytes of K")?;
    }
    Ok(())
}

// Fields that the writer refuses, at the places that the file would have.
fn refused(rt: &impl Print, net: Network) -> io::Result<()> {
    let mut many = net;
    many.process_count = 13;
    into::<67>(rt, "K with 13 processes", many)?;
    let mut none = net;
    none.process_count = 0;
    into::<67>(rt, "K with no process", none)?;
    let mut capacity = net;
    capacity.channels[0].writer = u32::MAX;
    capacity.channels[0].capacity = 9;
    into::<67>(rt, "K with capacity 9 after a five-byte end", capacity)?;
    let mut kind = net;
    kind.actions[0] = 8;
    into::<67>(rt, "K with an action 8 first", kind)
}

// A network written into N lent bytes.
fn into<const N: usize>(rt: &impl Print, label: &str, net: Network) -> io::Result<()>
    requires { N ≤ 4096 }
{
    files::write(rt, label, net, &mut [0xEEu8; N])
}
