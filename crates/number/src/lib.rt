// Numbers of a network file: 0 to 4,294,967,295 in groups of seven bits, low group first, one group to a byte.
// The high bit is set on every group but the last, and there are at most five groups.
#![tactic(auto)]

ghost use Rattle.std.specs.Prelude.{◌≡◌, ◌+◌, ◌<◌, ◌≤◌, ◌^◌, length, drop};
ghost use Rattle.std.proofs.lemmas.List.Edits.{sets};
ghost use Rattle.number.specs.Number.{number_at, rest_from, plus};
ghost use Rattle.number.specs.Encode.{encode};
ghost use Rattle.number.specs.Put.{put_at, after};
ghost use Rattle.number.specs.Told.{further_at, part_told, next_told};

use reply::{Refusal, Reply, calls};

// The groups of seven bits that may stand between the first and the fifth.
const MIDDLE: usize = 3;

// A group after the first, at `at`, of a number that starts at `start`; and the position after it.
fn further(file: &[u8], start: usize, at: usize) -> Result<(u32, usize), Refusal>
    ensures { result ≡ part_told (further_at file.now start at) }
{
    match file.get(at) {
        Some(0) => Err(Refusal {
            reply: Reply::MalformedNumber,
            place: start,
        }),
        Some(&b) => Ok((u32::from(b), at + 1)),
        None => Err(Refusal {
            reply: Reply::FileEnds,
            place: start,
        }),
    }
}

// The fifth group at `at`, of a number that starts at `start` and whose first four are worth `low`.
fn read_fifth(file: &[u8], start: usize, at: usize, low: u32) -> Result<(u32, usize), Refusal>
    requires { low < 2 ^ 28 }
    ensures { result ≡ part_told (plus low (2 ^ 28) (rest_from start 0 (drop at file.now) at)) }
{
    let (b, next) = further(file, start, at)?;
    if b <= 15 {
        return Ok((low + 0x1000_0000 * b, next));
    }
    Err(Refusal {
        reply: Reply::MalformedNumber,
        place: start,
    })
}

// The groups from `from` on, of a number that starts at `start` and whose first group is worth `low`.
fn read_rest(file: &[u8], start: usize, from: usize, low: u32) -> Result<(u32, usize), Refusal>
    requires { low < 128 }
    ensures { result ≡ part_told (plus low 128 (rest_from start 3 (drop from file.now) from)) }
{
    let mut value = low;
    let mut scale: u32 = 128;
    let mut at = from;
    for _ in 0..MIDDLE {
        let (b, next) = further(file, start, at)?;
        value += scale * (b % 128);
        if b < 128 {
            return Ok((value, next));
        }
        scale *= 128;
        at = next;
    }
    read_fifth(file, start, at, value)
}

// The number at `at`.
pub fn read_number(file: &[u8], at: usize) -> Result<(u32, usize), Refusal>
    ensures { result ≡ part_told (number_at file.now at) }
{
    match file.get(at) {
        Some(&b) if b < 128 => Ok((u32::from(b), at + 1)),
        Some(&b) => read_rest(file, at, at + 1, u32::from(b % 128)),
        None => Err(Refusal {
            reply: Reply::FileEnds,
            place: at,
        }),
    }
}

// How many groups n has.
pub fn width(n: u32) -> usize
    ensures { result ≡ length (encode n) }
{
    if n < 0x80 {
        1
    } else if n < 0x4000 {
        2
    } else if n < 0x20_0000 {
        3
    } else if n < 0x1000_0000 {
        4
    } else {
        5
    }
}

// Writes the groups of n from `from` on, where there is room, and returns the position after them.
pub fn put_groups(out: &mut [u8], from: usize, n: u32) -> usize
    requires { from + length (encode n) ≤ length out.old }
    ensures value { result ≡ from + length (encode n) }
    ensures out_after { out.new ≡ sets out.old from (encode n) }
{
    let mut rest = n;
    let mut at = from;
    // Kept: it ends by what is left of the number, and `at` is counted beside it, since how many groups come is not known before.
    while 128 <= rest {
        out[at] = (128 + rest % 128) as u8;
        rest = rest / 128;
        at += 1;
    }
    out[at] = rest as u8;
    at + 1
}

// Writes n at `at`, or nothing where it does not fit.
pub fn write_number(out: &mut [u8], at: usize, n: u32) -> Result<usize, Refusal>
    ensures value { result ≡ next_told (put_at out.old at (encode n)) }
    ensures out_after { out.new ≡ after out.old at (encode n) }
{
    calls::room(width(n), out.len().saturating_sub(at))?;
    Ok(put_groups(out, at, n))
}
