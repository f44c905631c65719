// The writer of network files: the bytes of a network, if the reader would accept them and there is room for them.
#![tactic(auto)]

mod judging;
mod writing;

ghost use Rattle.std.specs.Prelude.{◌≡◌, length};
ghost use Rattle.reply.specs.Told.{told};
ghost use Rattle.network.specs.Read.{load};
ghost use Rattle.network.specs.Write.{given, writing, told_of, filled_by, wrote, wrote_to};
ghost use Rattle.writer.specs.Laid.{written_of};

use network::{Network, Written};
use reply::{Answer, Refusal, calls};

// What the reader says of a file.
fn judge(file: &[u8]) -> Result<(), Refusal>
    ensures { result ≡ told (λ net. tt) (load file.now) }
{
    reader::read(file).answer.ok()
}

// Fills the front of a buffer with the bytes of a file, if there is room, and gives how many they are.
#[tactic(auto, unfolding(network::specs::Write::given, network::specs::Write::filled_by))]
fn fill(file: &[u8], out: &mut [u8]) -> Result<usize, Refusal>
    ensures value { result ≡ told length (given file.now (length out.old)) }
    ensures out_after { out.new ≡ filled_by out.old (given file.now (length out.old)) }
{
    calls::room(file.len(), out.len())?;
    out[..file.len()].copy_from_slice(file);
    Ok(file.len())
}

// Fills a buffer with the file of a network. Only a network that is not seen to be good is read.
fn put(network: &Network, out: &mut [u8]) -> Result<usize, Refusal>
    ensures value { result ≡ told length (writing network.now (length out.old)) }
    ensures out_after { out.new ≡ wrote_to network.now out.old }
{
    let mut bytes = [0; 7060];
    let size = writing::encode_network(network, &mut bytes);
    let file = &bytes[..size];
    if !judging::is_good(network) {
        judge(file)?;
    }
    fill(file, out)
}

// What is returned of it.
fn written(outcome: Result<usize, Refusal>) -> Written
    ensures { result ≡ written_of outcome }
{
    match outcome {
        Ok(length) => Written {
            answer: Answer::done(),
            length,
        },
        Err(refusal) => Written {
            answer: Answer::from(refusal),
            length: 0,
        },
    }
}

// Gives the bytes of a file, if there is room.
pub fn give(file: &[u8], out: &mut [u8]) -> Written
    ensures value { result ≡ told_of (given file.now (length out.old)) }
    ensures out_after { out.new ≡ filled_by out.old (given file.now (length out.old)) }
{
    written(fill(file, out))
}

// Writes the file of a network, if the reader would accept it and there is room; else nothing.
pub fn write(network: Network, out: &mut [u8]) -> Written
    ensures value { result ≡ wrote network out.old }
    ensures out_after { out.new ≡ wrote_to network out.old }
{
    written(put(&network, out))
}
