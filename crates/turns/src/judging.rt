// The turns of a call: each names a processor.
ghost use Rattle.std.specs.Prelude.{◌≡◌, leb};
ghost use Rattle.std.specs.List.{position};
ghost use Rattle.reply.specs.Told.{judged};
ghost use Rattle.promises.specs.Turns.{ok_turns};

use reply::{Refusal, Reply};

// The first turn that names no processor.
fn first_beyond(turns: &[u32], processors: u32) -> Option<usize>
    ensures { result ≡ position (λ turn. leb processors turn) turns.now }
{
    turns.iter().position(|turn| processors <= *turn)
}

// The turns in order: reply 17 at the first that names no processor.
pub fn judge(turns: &[u32], processors: u32) -> Result<(), Refusal>
    ensures { result ≡ judged (ok_turns processors turns.now) }
{
    match first_beyond(turns, processors) {
        None => Ok(()),
        Some(place) => Err(Refusal {
            reply: Reply::WrongTurn,
            place,
        }),
    }
}
