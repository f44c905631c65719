// The line of a run: reply and place, output words, what each channel holds, and the variables of each process.
use crate::print;
use crate::print::{Numbers, Output, Told};
use machine::Held;
use reply::Answer;
use std::convert::AsSlice;
use std::fmt::Display;
use std::{fmt, io};

pub fn show(
    rt: &impl Print,
    label: impl AsSlice<u8> + Drop,
    file: &[u8],
    frames: u32,
    input: &[u32],
    output: &mut [u32],
) -> io::Result<()> {
    let ran = zero_delay::run(file, frames, input, output);
    let state = State {
        file,
        answer: ran.answer,
        channels: &ran.channels,
        variables: &ran.variables,
    };
    print::head(rt, label)?;
    println!(rt; "{}{}{state}", Told(ran.answer), Output(output))
}

// What a run of a file leaves: the channels and the variables of its network, or that all is zero.
#[derive(Drop)]
pub struct State<'a> {
    pub file: &'a [u8],
    pub answer: Answer,
    pub channels: &'a [Held],
    pub variables: &'a [u32],
}

impl Display for State<'_> {
    fn fmt<W: fmt::Write>(&self, f: &mut fmt::Formatter<W>) -> fmt::Result {
        match self.answer.ok() {
            Ok(()) => {
                let network = reader::read(self.file).network;
                held(f, self.channels, network.channel_count as usize)?;
                variables(f, self.variables, network.process_count as usize)
            }
            Err(_) if self.is_zero() => write!(f, ", all else zero"),
            Err(_) => Ok(()),
        }
    }
}

impl State<'_> {
    // Whether no variable has a value, and no channel held or lost one.
    fn is_zero(&self) -> bool {
        self.variables.iter().all(|&variable| variable == 0) && self.channels.iter().all(is_empty)
    }
}

// Of the first `count` channels how many values each holds, its eight places, and its loss.
fn held<W: fmt::Write>(f: &mut fmt::Formatter<W>, channels: &[Held], count: usize) -> fmt::Result {
    for (i, held) in channels.iter().take(count).enumerate() {
        let values = Numbers(&held.values);
        write!(
            f,
            ", channel {i} holds {}:{values}, loss {}",
            held.number, held.loss
        )?;
    }
    Ok(())
}

// Eight for each of the first `count` processes.
fn variables<W: fmt::Write>(
    f: &mut fmt::Formatter<W>,
    variables: &[u32],
    count: usize,
) -> fmt::Result {
    for (i, eight) in variables.chunks(8).take(count).enumerate() {
        write!(f, ", variables {i}:{}", Numbers(eight))?;
    }
    Ok(())
}

fn is_empty(held: &Held) -> bool {
    held.number == 0 && held.loss == 0 && held.values.iter().all(|&value| value == 0)
}
