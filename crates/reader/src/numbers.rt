// Numbers of the file that have a range.
ghost use Rattle.std.specs.Prelude.{◌≡◌};
ghost use Rattle.number.specs.Told.{part_told};
ghost use Rattle.network.specs.Read.{ranged};

use reply::{Refusal, Reply};

// The number at `at`, if it is from low to high, and the position after it.
#[tactic(auto, unfolding(network::specs::Read::ranged))]
pub fn in_range(file: &[u8], low: u32, high: u32, at: usize) -> Result<(u32, usize), Refusal>
    ensures { result ≡ part_told (ranged file.now low high at) }
{
    let (value, next) = number::read_number(file, at)?;
    if (low..=high).contains(&value) {
        return Ok((value, next));
    }
    Err(Refusal {
        reply: Reply::OutOfRange,
        place: at,
    })
}
