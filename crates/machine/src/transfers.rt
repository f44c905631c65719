// A read of a channel or of the input sample into variables, and a write of a variable into a channel.
ghost use Rattle.std.specs.Prelude.{◌≡◌, ◌+◌, ◌*◌, ◌<◌, slice_set};
ghost use Rattle.machine.specs.Acting.{kinds_in, Capacities, Room, Effected};
ghost use Rattle.machine.specs.Words.{SoundWords};
ghost use Rattle.machine.specs.declared.Action.TheVariants.{Read, Write};

use crate::{Sample, State, Tables, variables, words};

// Value to b, then flag to c.
pub fn read(channel: u32, b: u32, c: u32, p: usize, tables: &Tables, state: &mut State)
    requires { (channel < 16) × (b < 8) × (c < 8) × (p < 12) × SoundWords state.old.words }
    ensures { Effected (Read channel b c) p (kinds_in tables.now.channels) state.old.variables state.old.words state.new.variables state.new.words }
{
    let i = channel as usize;
    let given = words::read(&mut state.words, i, tables.channels[i].kind);
    let variables = &mut state.variables;
    variables::set(variables, p, b, given.unwrap_or(0));
    variables::set(variables, p, c, u32::from(given.is_some()));
}

// The value of variable b.
pub fn write(channel: u32, b: u32, p: usize, tables: &Tables, state: &mut State)
    requires { (channel < 16) × (b < 8) × (p < 12) × Capacities (kinds_in tables.now.channels) × SoundWords state.old.words × Room state.old.words 1 }
    ensures { Effected (Write channel b) p (kinds_in tables.now.channels) state.old.variables state.old.words state.new.variables state.new.words }
{
    let i = channel as usize;
    let value = variables::get(&state.variables, p, b);
    let of = tables.channels[i];
    words::write(&mut state.words, i, of.kind, of.capacity, value);
}

// The sample's value to a, then its flag to b.
pub fn input(sample: Sample, a: u32, b: u32, p: usize, variables: &mut [u32; 96])
    requires { (a < 8) × (b < 8) × (p < 12) }
    ensures { variables.new ≡ slice_set (slice_set variables.old (8 * p + a) sample.value) (8 * p + b) sample.present }
{
    variables::set(variables, p, a, sample.value);
    variables::set(variables, p, b, sample.present);
}
