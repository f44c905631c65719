// The network of a file, and the rules that its reader and its writer share. And of a network its frame's length, and which process comes before which.
#![tactic(auto)]

mod ahead;
pub mod channels;
pub mod cycles;
pub mod frame;
pub mod pairs;
pub mod programs;

ghost use Rattle.std.specs.Prelude.{◌≡◌, length, min};
ghost use Rattle.network.specs.Frame.{frame_length};
ghost use Rattle.network.specs.Net.{within};
ghost use Rattle.network.specs.AheadTold.{AheadTold};

use marks::Row;
use reply::Answer;

// One process: its period, the jobs it releases each time, and each job's relative deadline and budget, in ticks.
#[repr(C)]
#[derive(Clone, Copy, Debug, PartialEq, Eq)]
pub struct Process {
    pub period: u32,
    pub burst: u32,
    pub deadline: u32,
    pub budget: u32,
}

#[repr(C)]
#[derive(Clone, Copy, Debug, PartialEq, Eq)]
pub struct Pair {
    pub higher: u32,
    pub lower: u32,
}

// Kind 0 is a queue, 1 a board.
// Kept: the kind is a number, since C sees the struct (`fppn_read`).
#[repr(C)]
#[derive(Clone, Copy, Debug, PartialEq, Eq)]
pub struct Channel {
    pub kind: u32,
    pub writer: u32,
    pub reader: u32,
    pub capacity: u32,
}

// The four numbers of an action.
#[derive(Clone, Copy, Debug, PartialEq, Eq)]
pub struct Four {
    pub head: u32,
    pub a: u32,
    pub b: u32,
    pub c: u32,
}

// Zero past the counts. Action k of process p stands at 96 * p + 4 * k of `actions`.
// Kept: arrays with counts beside them, since C sees the struct (`fppn_read`) and memory is fixed; `processes`, `pairs` and `channels` below give them as slices.
#[repr(C)]
#[derive(Clone, Copy, Debug, PartialEq, Eq)]
pub struct Network {
    pub process_count: u32,
    pub processes: [Process; 12],
    pub pair_count: u32,
    pub pairs: [Pair; 66],
    pub channel_count: u32,
    pub channels: [Channel; 16],
    pub action_counts: [u32; 12],
    pub actions: [u32; 1152],
}

// What the reader returns; the network is all zero when the file is refused.
// Kept: an answer beside it and no `Result`, since `read_file`, which `reader::read` promises, is a Loaded, and theorem `read_careful` speaks of its zeros.
#[derive(Clone, Copy, Debug, PartialEq, Eq)]
pub struct Loaded {
    pub answer: Answer,
    pub network: Network,
}

// What the writer returns: how many bytes it wrote.
// Kept: an answer beside it and no `Result`, since `wrote`, which `writer::write` promises, is a Written, and theorem `write_careful` speaks of its zero.
#[derive(Clone, Copy, Debug, PartialEq, Eq)]
pub struct Written {
    pub answer: Answer,
    pub length: usize,
}

impl Network {
    // The processes that the struct counts; a count that is too large counts all that there are.
    pub fn processes(&self) -> &[Process]
        ensures value { result.now ≡ (within self.now).processes }
        ensures count { length result.now ≡ min self.now.process_count 12 }
    {
        &self.processes[..(self.process_count as usize).min(12)]
    }

    pub fn pairs(&self) -> &[Pair]
        ensures value { result.now ≡ (within self.now).pairs }
        ensures count { length result.now ≡ min self.now.pair_count 66 }
    {
        &self.pairs[..(self.pair_count as usize).min(66)]
    }

    pub fn channels(&self) -> &[Channel]
        ensures value { result.now ≡ (within self.now).channels }
        ensures count { length result.now ≡ min self.now.channel_count 16 }
    {
        &self.channels[..(self.channel_count as usize).min(16)]
    }
}

// The length of the frame of a network, 2001 if it is above 2000.
pub fn frame_of(network: &Network) -> u32
    ensures { result ≡ frame_length (within network.now).processes }
{
    frame::frame_length(network.processes())
}

// Which process comes before which: row a marks b where a chain of pairs leads from a to b.
pub fn ahead_of(network: &Network) -> [Row; 12]
    ensures { AheadTold network.now result }
{
    let rows = ahead::rows_of(network.pairs());
    let n = network.processes().len();
    cycles::lead(rows, n)
}
