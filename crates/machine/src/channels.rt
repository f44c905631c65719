// A read and a write of one channel.
// Kept: kind 1, a number, is a board. C is given it so in `network::Channel`, and `after_read` and `after_write` (specs/State.antt) speak of the number.
ghost use Rattle.std.specs.Prelude.{◌≡◌, ◌<◌, ◌≤◌, if◌then◌else◌, nat_eq, slice_set};
ghost use Rattle.machine.specs.ChannelTold.{Sound, TakenFrom, PutInto};

use crate::Channel;

// The channel after a read, and the value that the read gives, if there is one: a queue gives its oldest value away, a board a copy of its last.
pub fn take(channel: Channel, kind: u32) -> (Channel, Option<u32>)
    requires { Sound channel }
    ensures { TakenFrom channel kind result.0 result.1 }
{
    let held = channel.length;
    if held == 0 {
        return (channel, None);
    }
    let value = channel.values[channel.head as usize];
    if kind == 1 {
        return (channel, Some(value));
    }
    let left = Channel {
        head: (channel.head + 1) % 8,
        length: held - 1,
        ..channel
    };
    (left, Some(value))
}

// `new` at place `at`, and else `old`.
fn pick(at: u32, place: u32, new: u32, old: u32) -> u32
    ensures { result ≡ (if nat_eq at place then new else old) }
{
    if at == place { new } else { old }
}

// The values with a new one at a place. Each place is chosen for itself, so that the eight stay in registers.
// Kept: the choice is a function. Tried: an `if` in the loop; a run that reads and writes channels takes a quarter longer (1.4 times ordinary Rust, not 1.1).
fn with_value(values: [u32; 8], at: u32, value: u32) -> [u32; 8]
    requires { at < 8 }
    ensures { result ≡ slice_set values at value }
{
    let mut written = values;
    for k in 0..8 {
        let place = k as usize;
        written[place] = pick(at, k, value, written[place]);
    }
    written
}

// A board has the value in place of its last; a queue has it after all others, or is full and counts a loss.
pub fn put(channel: Channel, kind: u32, capacity: u32, value: u32) -> Channel
    requires { Sound channel × (capacity ≤ 8) × (channel.loss < 4294967295) }
    ensures { PutInto channel kind capacity value result }
{
    let held = channel.length;
    if kind == 1 {
        let values = with_value(channel.values, channel.head, value);
        return Channel {
            values,
            length: 1,
            ..channel
        };
    }
    if held < capacity {
        let values = with_value(channel.values, (channel.head + held) % 8, value);
        return Channel {
            values,
            length: held + 1,
            ..channel
        };
    }
    Channel {
        loss: channel.loss + 1,
        ..channel
    }
}
