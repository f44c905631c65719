// The pairs of the file, and beside them rows of marks: row a marks b where a-b is a pair.
ghost use Rattle.std.specs.Prelude.{◌≡◌, [], ◌≤◌};
ghost use Rattle.reply.specs.declared.Reply.TheVariants.{BadPair};
ghost use Rattle.number.specs.Parts.{many};
ghost use Rattle.number.specs.Told.{part_told};
ghost use Rattle.network.specs.Read.{one_pair};
ghost use Rattle.reader.specs.Told.{marked_told, pairs_at, pairs_told};

use crate::numbers;
use marks::Row;
use network::{Pair, cycles, pairs};
use reply::{Refusal, Reply};

fn bad_pair(place: usize) -> Refusal
    ensures { result ≡ record { reply = BadPair; place = place } }
{
    Refusal {
        reply: Reply::BadPair,
        place,
    }
}

// The pair at `at`, which may still be a repeated one.
#[tactic(auto, unfolding(network::specs::Read::one_pair, network::specs::Pairs::good_pair))]
fn read_pair(file: &[u8], n: u32, at: usize) -> Result<(Pair, usize), Refusal>
    ensures { result ≡ part_told (one_pair file.now n [] at) }
{
    let (higher, next) = number::read_number(file, at)?;
    let (lower, next) = number::read_number(file, next)?;
    if pairs::are_apart(n, higher, lower) {
        return Ok((Pair { higher, lower }, next));
    }
    Err(bad_pair(at))
}

// No pair: what stands past the pairs that there are.
pub const NO_PAIR: Pair = Pair {
    higher: 0,
    lower: 0,
};

// So many pairs from `from` on, of n processes.
fn read_list(
    file: &[u8],
    n: u32,
    count: usize,
    from: usize,
) -> Result<([Pair; 66], [Row; 12], usize), Refusal>
    requires { (n ≤ 12) × (count ≤ 66) }
    ensures { result ≡ marked_told (many count (one_pair file.now n) from) }
{
    // Kept: a loop of its own beside `records::read_list`, of which a step, an `Fn`, could not mark the rows.
    let mut pairs = [NO_PAIR; 66];
    let mut rows = pairs::no_rows();
    let mut at = from;
    for i in 0..count {
        let (pair, next) = read_pair(file, n, at)?;
        let higher = pair.higher as usize;
        let lower = pair.lower as usize;
        if rows[higher].has(lower) {
            return Err(bad_pair(at));
        }
        rows[higher] = rows[higher].with(lower);
        pairs[i] = pair;
        at = next;
    }
    Ok((pairs, rows, at))
}

// How many pairs of n processes there are, and each of them; no chain of them may lead back to its start.
#[tactic(auto, unfolding(crate::specs::Told::pairs_at))]
pub fn read_pairs(
    file: &[u8],
    n: u32,
    at: usize,
) -> Result<(u32, [Pair; 66], [Row; 12], usize), Refusal>
    requires { n ≤ 12 }
    ensures { result ≡ pairs_told (pairs_at file.now n at) }
{
    let (count, at) = numbers::in_range(file, 0, 66, at)?;
    let (pairs, rows, at) = read_list(file, n, count as usize, at)?;
    if cycles::has_cycle(rows, n as usize) {
        return Err(bad_pair(at));
    }
    Ok((count, pairs, rows, at))
}
