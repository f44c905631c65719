// What the channels hold, as a run reports it.
ghost use Rattle.std.specs.Prelude.{◌≡◌, map, replicate};
ghost use Rattle.machine.specs.ChannelTold.{Sound, contents_by};
ghost use Rattle.machine.specs.Words.{contents_in, SoundWords};
ghost use Rattle.machine.specs.HeldOf.{held_of, no_held};

use crate::{Channel, Held, words};

// The values of a channel from its head on, oldest first.
fn held_of(channel: Channel) -> Held
    requires { Sound channel }
    ensures { result ≡ held_of (contents_by channel) }
{
    let mut values = [0; 8];
    for k in 0..channel.length {
        let at = (channel.head + k) % 8;
        values[k as usize] = channel.values[at as usize];
    }
    Held {
        number: channel.length,
        values,
        loss: channel.loss,
    }
}

// What channels hold that hold nothing.
pub fn no_held() -> [Held; 16]
    ensures { result ≡ replicate 16 no_held }
{
    [Held {
        number: 0,
        values: [0; 8],
        loss: 0,
    }; 16]
}

// Of each channel what it holds.
pub fn held(words: &[u32; 192]) -> [Held; 16]
    requires { SoundWords words.now }
    ensures { result ≡ map held_of (contents_in words.now) }
{
    let mut all = no_held();
    for i in 0..16 {
        all[i] = held_of(words::load(words, i));
    }
    all
}
