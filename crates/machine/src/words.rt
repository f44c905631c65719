// Channels in a lent array of numbers, twelve for each.
// Kept: numbers, and no array of channels. `stored_same`, `stored_other` and `stored_contents` (specs/WordLaws.antt), `start_sound` and `start_contents` (specs/StartLaws.antt), which docs/PROMISES.md names, say what is in these words.
ghost use Rattle.std.specs.Prelude.{◌≡◌, ◌+◌, ◌<◌, ◌≤◌, slice_index, slice_index_or};
ghost use Rattle.std.proofs.lemmas.List.Edits.{sets};
ghost use Rattle.network.specs.Lists.{table};
ghost use Rattle.machine.specs.State.{nothing};
ghost use Rattle.machine.specs.ChannelTold.{Sound};
ghost use Rattle.machine.specs.Words.{channel_at, stored, contents_in, SoundWords, ReadFrom, WrittenTo};

use crate::{Channel, channels};

// The eight numbers from a place on.
// Kept: number by number. Tried: `copy_from_slice` here and in `store_values`; a run that reads and writes channels takes half as long again (1.7 times ordinary Rust, not 1.1).
fn load_values(words: &[u32; 192], at: usize) -> [u32; 8]
    requires { at ≤ 184 }
    ensures { result ≡ table 8 (λ k. slice_index words.now (at + k)) }
{
    let mut values = [0; 8];
    for k in 0..8 {
        values[k] = words[at + k];
    }
    values
}

// Puts eight numbers from a place on.
fn store_values(words: &mut [u32; 192], at: usize, values: [u32; 8])
    requires { at ≤ 184 }
    ensures { words.new ≡ sets words.old at (table 8 (λ k. slice_index values k)) }
{
    for k in 0..8 {
        words[at + k] = values[k];
    }
}

// Channel i.
pub fn load(words: &[u32; 192], i: usize) -> Channel
    requires { i < 16 }
    ensures { result ≡ channel_at words.now i }
{
    let at = i * 12;
    Channel {
        values: load_values(words, at),
        head: words[at + 8],
        length: words[at + 9],
        loss: words[at + 10],
    }
}

// Puts channel i.
pub fn store(words: &mut [u32; 192], i: usize, channel: Channel)
    requires { (i < 16) × Sound channel }
    ensures { words.new ≡ stored words.old i channel }
{
    let at = i * 12;
    store_values(words, at, channel.values);
    words[at + 8] = channel.head;
    words[at + 9] = channel.length;
    words[at + 10] = channel.loss;
}

// Reads channel i: the value, if there is one.
pub fn read(words: &mut [u32; 192], i: usize, kind: u32) -> Option<u32>
    requires { (i < 16) × SoundWords words.old }
    ensures { ReadFrom i kind words.old words.new result }
{
    let (left, given) = channels::take(load(words, i), kind);
    store(words, i, left);
    given
}

// Writes a value into channel i.
pub fn write(words: &mut [u32; 192], i: usize, kind: u32, capacity: u32, value: u32)
    requires { (i < 16) × SoundWords words.old × (capacity ≤ 8) × ((slice_index_or (contents_in words.old) i nothing).loss < 4294967295) }
    ensures { WrittenTo i kind capacity value words.old words.new }
{
    let after = channels::put(load(words, i), kind, capacity, value);
    store(words, i, after);
}
