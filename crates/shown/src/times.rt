// The line of a timed run.
use crate::print;
use crate::print::{Output, Told};
use std::convert::AsSlice;
use std::io;

pub fn show(
    rt: &impl Print,
    label: impl AsSlice<u8> + Drop,
    file: &[u8],
    processors: u32,
    plan: &[u32],
    durations: &[u32],
    out: &mut [u32],
) -> io::Result<()> {
    let answer = timed::run(file, processors, plan, durations, out);
    print::head(rt, label)?;
    println!(rt; "{}{}", Told(answer), Output(out))
}
