// The whole file, part after part; the first refusal is the file's.
ghost use Rattle.std.specs.Prelude.{◌≡◌};
ghost use Rattle.reply.specs.Told.{told};
ghost use Rattle.network.specs.Net.{fill};
ghost use Rattle.network.specs.Read.{load};

use crate::{channels, pairs, processes, programs};
use network::Network;
use reply::{Refusal, Reply};

// The version that a file has.
const VERSION: u32 = 1;

// The network of a file.
pub fn load(file: &[u8]) -> Result<Network, Refusal>
    ensures { result ≡ told fill (load file.now) }
{
    let (version, at) = number::read_number(file, 0)?;
    if version != VERSION {
        return Err(Refusal {
            reply: Reply::WrongVersion,
            place: 0,
        });
    }
    let (process_count, processes, at) = processes::read_processes(file, at)?;
    let (pair_count, pairs, rows, at) = pairs::read_pairs(file, process_count, at)?;
    let (channel_count, channels, at) = channels::read_channels(file, rows, process_count, at)?;
    let mut action_counts = [0; 12];
    let mut actions = [0; 1152];
    let at = programs::read_programs(
        file,
        &channels[..channel_count as usize],
        process_count as usize,
        at,
        &mut action_counts,
        &mut actions,
    )?;
    if at < file.len() {
        return Err(Refusal {
            reply: Reply::BytesLeft,
            place: at,
        });
    }
    Ok(Network {
        process_count,
        processes,
        pair_count,
        pairs,
        channel_count,
        channels,
        action_counts,
        actions,
    })
}
