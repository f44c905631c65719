// What both runs are built from: the actions of a process, and what they do to its variables and its channels.
#![tactic(auto)]

pub mod actions;
mod channels;
pub mod report;
pub mod samples;
mod transfers;
mod variables;
mod words;

ghost use Rattle.std.specs.Prelude.{◌≡◌, replicate, slice_index};
ghost use Rattle.machine.specs.Acting.{kinds_in, Able, Acted};
ghost use Rattle.machine.specs.Jobs.{Runs, JobDone, Goes, Went};
ghost use Rattle.machine.specs.WholeJob.{started};

use network::Network;

// One action. Operands name variables 0 to 7 of the process, a channel, a number, or how many actions to skip.
// Kept: `Unknown`, and no `Option<Action>`. The definitions `decode` (specs/Actions.antt) and `program_of`, of which the promises speak, say it of four numbers that are no action.
#[derive(Clone, Copy, Debug, PartialEq, Eq)]
pub enum Action {
    Set { a: u32, number: u32 },
    Add { a: u32, b: u32, c: u32 },
    Subtract { a: u32, b: u32, c: u32 },
    Read { channel: u32, b: u32, c: u32 },
    Write { channel: u32, b: u32 },
    Input { a: u32, b: u32 },
    Output { a: u32 },
    Skip { a: u32, n: u32 },
    Unknown,
}

// A job's input or output: `present` is 0 or 1, and `value` is 0 where it is not present.
// Kept: two numbers, and no `Option<u32>`. The definitions `sample_at`, `good_sample` and `effect` speak of both: a lent sample may say 2, and an input action puts `present` into a variable.
#[derive(Clone, Copy, Debug, PartialEq, Eq)]
pub struct Sample {
    pub present: u32,
    pub value: u32,
}

// A queue or a board: `length` values from place `head` on, round the eight places, oldest first; and how many writes met it full.
// Kept: a length beside eight places. A channel has fixed memory, and its values go round the places.
#[derive(Clone, Copy, Debug, PartialEq, Eq)]
pub struct Channel {
    pub values: [u32; 8],
    pub head: u32,
    pub length: u32,
    pub loss: u32,
}

// What a job under way keeps for itself: the number of its next action, and what it has output so far.
#[derive(Clone, Copy, Debug, PartialEq, Eq)]
pub struct Under {
    pub at: usize,
    pub output: Sample,
}

// What the actions of a run read: the actions of each process as numbers, how many it has, and the channels.
#[derive(Clone, Copy)]
pub struct Tables {
    pub program: [u32; 1152],
    pub counts: [u32; 12],
    pub channels: [network::Channel; 16],
}

// What they change: the variables of the processes, eight for each, and the channels as numbers, twelve for each.
#[derive(Clone, Copy, Debug, PartialEq, Eq)]
pub struct State {
    pub variables: [u32; 96],
    pub words: [u32; 192],
}

// What a run returns of a channel: how many values it holds, the values, oldest first and zeros after them, and the loss count.
// Kept: a number beside eight places. C is given it, by `fppn_zero_delay` and `fppn_turns`.
#[repr(C)]
#[derive(Clone, Copy, Debug, PartialEq, Eq)]
pub struct Held {
    pub number: u32,
    pub values: [u32; 8],
    pub loss: u32,
}

impl Under {
    // Of a job at its start.
    pub fn start() -> Under
        ensures { result ≡ started }
    {
        Under {
            at: 0,
            output: Sample {
                present: 0,
                value: 0,
            },
        }
    }
}

impl Tables {
    // Those of a network.
    pub fn of(network: &Network) -> Tables
        ensures program { result.program ≡ network.now.actions }
        ensures counts { result.counts ≡ network.now.action_counts }
        ensures channels { result.channels ≡ network.now.channels }
    {
        Tables {
            program: network.actions,
            counts: network.action_counts,
            channels: network.channels,
        }
    }
}

impl State {
    // What a run starts from: no values in variables and channels.
    pub fn empty() -> State
        ensures { result ≡ record { variables = replicate 96 0; words = replicate 192 0 } }
    {
        State {
            variables: [0; 96],
            words: [0; 192],
        }
    }
}

// One action of a job of process p that is under way.
pub fn act(
    action: Action,
    p: usize,
    under: Under,
    input: Sample,
    tables: &Tables,
    state: &mut State,
) -> Under
    requires { Able action p under (kinds_in tables.now.channels) state.old.words }
    ensures { Acted action p under input (kinds_in tables.now.channels) state.old.variables state.old.words state.new.variables state.new.words result }
{
    let at = under.at + 1;
    let output = under.output;
    match action {
        Action::Set { a, number } => variables::set(&mut state.variables, p, a, number),
        Action::Add { a, b, c } => variables::add(&mut state.variables, p, a, b, c),
        Action::Subtract { a, b, c } => variables::subtract(&mut state.variables, p, a, b, c),
        Action::Read { channel, b, c } => transfers::read(channel, b, c, p, tables, state),
        Action::Write { channel, b } => transfers::write(channel, b, p, tables, state),
        Action::Input { a, b } => transfers::input(input, a, b, p, &mut state.variables),
        Action::Output { a } => {
            let value = variables::get(&state.variables, p, a);
            return Under {
                at,
                output: Sample { present: 1, value },
            };
        }
        Action::Skip { a, n } => {
            if variables::get(&state.variables, p, a) == 0 {
                return Under {
                    at: at + n as usize,
                    output,
                };
            }
        }
        Action::Unknown => {}
    }
    Under { at, output }
}

// A job of process p goes on, action after action, until its place is `until` or later: a whole job from its start, or one action of a job under way.
pub fn go_on(
    tables: &Tables,
    p: usize,
    until: usize,
    from: Under,
    input: Sample,
    state: &mut State,
) -> Under
    requires { Goes tables.now.program p until from (kinds_in tables.now.channels) state.old.words }
    ensures { Went tables.now.program p until from input (kinds_in tables.now.channels) state.old.variables state.old.words state.new.variables state.new.words result }
{
    let mut under = from;
    while under.at < until {
        let action = actions::fetch(&tables.program, p, under.at);
        under = act(action, p, under, input, tables, state);
    }
    under
}

// A whole job of process p: what it outputs.
pub fn job(tables: &Tables, p: usize, input: Sample, state: &mut State) -> Sample
    requires { Runs tables.now.program p (slice_index tables.now.counts p) (kinds_in tables.now.channels) state.old.words }
    ensures { JobDone tables.now.program p (slice_index tables.now.counts p) input (kinds_in tables.now.channels) state.old.variables state.old.words state.new.variables state.new.words result }
{
    go_on(
        tables,
        p,
        tables.counts[p] as usize,
        Under::start(),
        input,
        state,
    )
    .output
}
