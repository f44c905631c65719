// The channel records of the file.
ghost use Rattle.std.specs.Prelude.{◌≡◌, ◌≤◌};
ghost use Rattle.number.specs.Parts.{many};
ghost use Rattle.number.specs.Told.{part_told};
ghost use Rattle.network.specs.Net.{no_channel};
ghost use Rattle.network.specs.Read.{channel_with};
ghost use Rattle.network.specs.Told.{ends_by};
ghost use Rattle.reader.specs.Told.{list_told, channels_at, channels_told};

use crate::{numbers, records};
use marks::Row;
use network::{Channel, channels};
use reply::{Refusal, Reply};

// The channel at `at`, of which the ends are judged last.
#[tactic(auto, unfolding(network::specs::Read::channel_with))]
fn read_channel(
    file: &[u8],
    rows: [Row; 12],
    n: u32,
    at: usize,
) -> Result<(Channel, usize), Refusal>
    requires { n ≤ 12 }
    ensures { result ≡ part_told (channel_with file.now (ends_by n rows) at) }
{
    let (kind, next) = numbers::in_range(file, 0, 1, at)?;
    let (writer, next) = number::read_number(file, next)?;
    let (reader, next) = number::read_number(file, next)?;
    let most = channels::most_capacity(kind);
    let (capacity, next) = numbers::in_range(file, 1, most, next)?;
    if channels::are_paired(rows, n, writer, reader) {
        let channel = Channel {
            kind,
            writer,
            reader,
            capacity,
        };
        return Ok((channel, next));
    }
    Err(Refusal {
        reply: Reply::BadChannel,
        place: at,
    })
}

// No channel: what stands past the channels that there are.
pub const NO_CHANNEL: Channel = Channel {
    kind: 0,
    writer: 0,
    reader: 0,
    capacity: 0,
};

// So many channels from `from` on, of n processes whose pairs are marked in the rows.
fn read_list(
    file: &[u8],
    rows: [Row; 12],
    n: u32,
    count: usize,
    from: usize,
) -> Result<([Channel; 16], usize), Refusal>
    requires { (n ≤ 12) × (count ≤ 16) }
    ensures { result ≡ list_told 16 no_channel (many count (λ before. channel_with file.now (ends_by n rows)) from) }
{
    records::read_list(
        NO_CHANNEL,
        count,
        from,
        |at| read_channel(file, rows, n, at),
    )
}

// How many channels there are, and each of them, of n processes whose pairs are marked in the rows.
#[tactic(auto, unfolding(crate::specs::Told::channels_at))]
pub fn read_channels(
    file: &[u8],
    rows: [Row; 12],
    n: u32,
    at: usize,
) -> Result<(u32, [Channel; 16], usize), Refusal>
    requires { n ≤ 12 }
    ensures { result ≡ channels_told (channels_at file.now (ends_by n rows) at) }
{
    let (count, at) = numbers::in_range(file, 0, 16, at)?;
    let (channels, at) = read_list(file, rows, n, count as usize, at)?;
    Ok((count, channels, at))
}
