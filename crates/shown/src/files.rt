// The line of a file that is read, or of a network that is written.
use crate::print;
use crate::print::{Bytes, Ends, Outcome};
use network::Network;
use std::convert::AsSlice;
use std::io;

pub fn read(rt: &impl Print, label: impl AsSlice<u8> + Drop, file: &[u8]) -> io::Result<()> {
    let loaded = reader::read(file);
    let network = &loaded.network;
    let counts = format_args!(
        "processes {}, pairs {}, channels {}",
        network.process_count, network.pair_count, network.channel_count
    );
    print::head(rt, label)?;
    println!(rt; "{}", Outcome(loaded.answer, counts))
}

// Of the bytes the first and the last.
pub fn write(
    rt: &impl Print,
    label: impl AsSlice<u8> + Drop,
    net: Network,
    out: &mut [u8],
) -> io::Result<()> {
    written_as(rt, label, net, out)?;
    println!(rt; "{}", Ends(out))
}

pub fn write_all(
    rt: &impl Print,
    label: impl AsSlice<u8> + Drop,
    net: Network,
    out: &mut [u8],
) -> io::Result<()> {
    written_as(rt, label, net, out)?;
    println!(rt; "{}", Bytes(out))
}

// The line of a write, but for the bytes.
fn written_as(
    rt: &impl Print,
    label: impl AsSlice<u8> + Drop,
    net: Network,
    out: &mut [u8],
) -> io::Result<()> {
    let written = writer::write(net, out);
    let size = format_args!("{} bytes", written.length);
    print::head(rt, label)?;
    print!(rt; "{},", Outcome(written.answer, size))
}
