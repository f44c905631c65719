// A listing, after the line of its length or refusal.
use crate::print;
use crate::print::Outcome;
use std::convert::AsSlice;
use std::io;

pub fn show(
    rt: &impl Print,
    label: impl AsSlice<u8> + Drop,
    file: &[u8],
    out: &mut [u8],
) -> io::Result<()> {
    let listed = listing::list(file, out);
    let size = format_args!("{} bytes", listed.length);
    print::head(rt, label)?;
    print!(rt; "{}, ", Outcome(listed.answer, size))?;
    rt.write_all(out)?;
    println!(rt; "")
}
