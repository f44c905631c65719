// What the calls share: the ranges of the numbers that they are given, and the lent memory that they need.
ghost use Rattle.std.specs.Prelude.{◌≡◌};
ghost use Rattle.reply.specs.Call.{ok_processors, ok_frames, room_of};
ghost use Rattle.reply.specs.Told.{judged};

use crate::{Refusal, Reply};

const OUT_OF_RANGE: Refusal = Refusal {
    reply: Reply::OutOfRange,
    place: 0,
};

const SHORT_BUFFER: Refusal = Refusal {
    reply: Reply::ShortBuffer,
    place: 0,
};

// A number of processors is 1 to 4.
pub fn processors(number: u32) -> Result<(), Refusal>
    ensures { result ≡ judged (ok_processors number) }
{
    if (1..=4).contains(&number) {
        return Ok(());
    }
    Err(OUT_OF_RANGE)
}

// A number of frames is 1 to 100.
pub fn frames(number: u32) -> Result<(), Refusal>
    ensures { result ≡ judged (ok_frames number) }
{
    if (1..=100).contains(&number) {
        return Ok(());
    }
    Err(OUT_OF_RANGE)
}

// A lent buffer of so many words or bytes has as many as the call reads or fills.
pub fn room(needed: usize, length: usize) -> Result<(), Refusal>
    ensures { result ≡ judged (room_of needed length) }
{
    if length < needed {
        return Err(SHORT_BUFFER);
    }
    Ok(())
}
