// The line of a turn run.
use crate::print;
use crate::print::{Output, Told};
use crate::ran::State;
use std::convert::AsSlice;
use std::io;

pub fn show(
    rt: &impl Print,
    label: impl AsSlice<u8> + Drop,
    file: &[u8],
    processors: u32,
    frames: u32,
    plan: &[u32],
    input: &[u32],
    list: &[u32],
    output: &mut [u32],
) -> io::Result<()> {
    let ran = turns::run(file, processors, frames, plan, input, list, output);
    print::head(rt, label)?;
    print!(rt;
        "{}, frames {}, jobs {}",
        Told(ran.answer),
        ran.frames,
        ran.jobs
    )?;
    print!(rt;
        ", working {}, waiting {}{}",
        ran.working,
        ran.waiting,
        Output(output)
    )?;
    let state = State {
        file,
        answer: ran.answer,
        channels: &ran.channels,
        variables: &ran.variables,
    };
    println!(rt; "{state}")
}
