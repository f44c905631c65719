// The line of a plan that is made, or checked.
use crate::print;
use crate::print::{Output, Told};
use std::convert::AsSlice;
use std::io;

pub fn show_plan(
    rt: &impl Print,
    label: impl AsSlice<u8> + Drop,
    file: &[u8],
    processors: u32,
    out: &mut [u32],
) -> io::Result<()> {
    let answer = plan::plan(file, processors, out);
    print::head(rt, label)?;
    println!(rt; "{}{}", Told(answer), Output(out))
}

pub fn show_check(
    rt: &impl Print,
    label: impl AsSlice<u8> + Drop,
    file: &[u8],
    processors: u32,
    plan: &[u32],
) -> io::Result<()> {
    let answer = plan::check(file, processors, plan);
    print::head(rt, label)?;
    println!(rt; "{}", Told(answer))
}
