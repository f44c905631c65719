// The reader of network files.
#![tactic(auto)]

mod channels;
mod loading;
mod numbers;
mod pairs;
mod processes;
mod programs;
mod records;

ghost use Rattle.std.specs.Prelude.{◌≡◌};
ghost use Rattle.network.specs.Net.{no_network};
ghost use Rattle.network.specs.Read.{read_file};

use network::{Loaded, Network};
use reply::Answer;

fn no_network() -> Network
    ensures { result ≡ no_network }
{
    Network {
        process_count: 0,
        processes: [processes::NO_PROCESS; 12],
        pair_count: 0,
        pairs: [pairs::NO_PAIR; 66],
        channel_count: 0,
        channels: [channels::NO_CHANNEL; 16],
        action_counts: [0; 12],
        actions: [0; 1152],
    }
}

// The network of a file, or a network that is all zero.
#[tactic(auto, unfolding(network::specs::Read::read_file))]
pub fn read(file: &[u8]) -> Loaded
    ensures { result ≡ read_file file.now }
{
    match loading::load(file) {
        Ok(network) => Loaded {
            answer: Answer::done(),
            network,
        },
        Err(refusal) => Loaded {
            answer: Answer::from(refusal),
            network: no_network(),
        },
    }
}
