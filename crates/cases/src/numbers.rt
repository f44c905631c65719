// Numbers of a file, read and written.
ghost use Rattle.std.specs.Prelude.{◌≤◌};

use shown::print::{Bytes, Refused};
use std::io;

pub fn run(rt: &impl Print) -> io::Result<()> {
    read_at_start(rt)?;
    read_inside(rt)?;
    write_all(rt)
}

fn read_at_start(rt: &impl Print) -> io::Result<()> {
    // A fifth byte above 15.
    read(rt, b"\xFF\xFF\xFF\xFF\x10", 0)?;
    // A fifth byte with the high bit set, where the file ends: there is no sixth group to wait for.
    read(rt, b"\x80\x80\x80\x80\x80", 0)?;
    // A zero last group after four others.
    read(rt, b"\x80\x80\x80\x80\x00", 0)?;
    // The file ends in the fifth group, and before the first.
    read(rt, b"\x80\x80\x80\x80", 0)?;
    read(rt, b"\x80\x80\x80\x80", 4)?;
    // Zero alone is a number, and bytes after a number do not matter.
    read(rt, b"\x00\x00", 0)
}

fn read_inside(rt: &impl Print) -> io::Result<()> {
    let file = b"\x01\xE5\x8E\x26\x80";
    read(rt, file, 1)?;
    read(rt, file, 3)?;
    // A refusal's place is the number's first byte.
    read(rt, file, 4)?;
    read(rt, file, usize::MAX)
}

fn write_all(rt: &impl Print) -> io::Result<()> {
    write::<2>(rt, 0, 128)?;
    write::<6>(rt, 1, u32::MAX)?;
    write::<5>(rt, 1, 16_384)?;
    // One byte too few, and a place beyond the end: nothing is written.
    write::<5>(rt, 4, 128)?;
    write::<5>(rt, 6, 0)
}

fn read(rt: &impl Print, file: &[u8], at: usize) -> io::Result<()> {
    print!(rt; "read{} from {at}: ", Bytes(file))?;
    match number::read_number(file, at) {
        Ok((value, next)) => println!(rt; "{value}, next {next}"),
        Err(refusal) => println!(rt; "{}", Refused(refusal)),
    }
}

// A number written into N lent bytes.
fn write<const N: usize>(rt: &impl Print, at: usize, n: u32) -> io::Result<()>
    requires { N ≤ 4096 }
{
    let mut out = [0xEEu8; N];
    print!(rt; "write {n} from {at}: ")?;
    match number::write_number(&mut out, at, n) {
        Ok(next) => println!(rt; "next {next},{}", Bytes(&out)),
        Err(refusal) => println!(rt; "{},{}", Refused(refusal), Bytes(&out)),
    }
}
