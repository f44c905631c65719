// The programs of the file, read into lent memory: four numbers an action, room for 24 actions a process.
// Kept: one array of numbers with rooms in it, and counts beside it, since the struct that C sees (`fppn_read`) has them so.
ghost use Rattle.std.specs.Prelude.{◌≡◌, ◌+◌, ◌≤◌, ◌<◌};
ghost use Rattle.std.proofs.lemmas.List.Edits.{sets};
ghost use Rattle.number.specs.Told.{part_told};
ghost use Rattle.network.specs.Net.{four_fields};
ghost use Rattle.reader.specs.ProgramsTold.{four_numbers, ActionsTold, ProgramTold, Ready, ProgramsTold};

use crate::numbers;
use network::{Channel, Four, programs};
use reply::{Refusal, Reply};

// ---- one action

#[tactic(auto, unfolding(crate::specs::ProgramsTold::four_numbers))]
fn read_four(file: &[u8], at: usize) -> Result<(Four, usize), Refusal>
    ensures { result ≡ part_told (four_numbers file.now at) }
{
    let (head, at) = number::read_number(file, at)?;
    let (a, at) = number::read_number(file, at)?;
    let (b, at) = number::read_number(file, at)?;
    let (c, at) = number::read_number(file, at)?;
    Ok((Four { head, a, b, c }, at))
}

fn store_four(actions: &mut [u32; 1152], at: usize, four: Four)
    requires { at + 3 < 1152 }
    ensures { actions.new ≡ sets actions.old at (four_fields four) }
{
    // Kept: `copy_from_slice` of the four was tried and proved, and reading the longest file then took a tenth longer than the old form.
    actions[at] = four.head;
    actions[at + 1] = four.a;
    actions[at + 2] = four.b;
    actions[at + 3] = four.c;
}

// ---- programs

// The n actions of process p from `from` on, into the room of p; and the position after them.
fn read_actions(
    file: &[u8],
    channels: &[Channel],
    p: usize,
    n: usize,
    from: usize,
    actions: &mut [u32; 1152],
) -> Result<usize, Refusal>
    requires { (p < 12) × (n ≤ 24) }
    ensures { ActionsTold file.now channels.now p n from actions.old actions.new result }
{
    let mut at = from;
    for k in 0..n {
        let (four, next) = read_four(file, at)?;
        let channel = programs::named(channels, four.a);
        if !programs::good_action(four, channel, p as u32, n, k) {
            return Err(Refusal {
                reply: Reply::BadAction,
                place: at,
            });
        }
        store_four(actions, 96 * p + 4 * k, four);
        at = next;
    }
    Ok(at)
}

// The program of process p at `at`: how many actions it has, and the position after them.
fn read_program(
    file: &[u8],
    channels: &[Channel],
    p: usize,
    at: usize,
    actions: &mut [u32; 1152],
) -> Result<(u32, usize), Refusal>
    requires { p < 12 }
    ensures { ProgramTold file.now channels.now p at actions.old actions.new result }
{
    let (n, at) = numbers::in_range(file, 0, 24, at)?;
    let at = read_actions(file, channels, p, n as usize, at, actions)?;
    Ok((n, at))
}

// The programs of so many processes from `from` on: their action counts into `counts`, their actions into `actions`. Both are zero before.
pub fn read_programs(
    file: &[u8],
    channels: &[Channel],
    count: usize,
    from: usize,
    counts: &mut [u32; 12],
    actions: &mut [u32; 1152],
) -> Result<usize, Refusal>
    requires { Ready count counts.old actions.old }
    ensures { ProgramsTold file.now channels.now count from counts.new actions.new result }
{
    let mut at = from;
    for p in 0..count {
        let (n, next) = read_program(file, channels, p, at, actions)?;
        counts[p] = n;
        at = next;
    }
    Ok(at)
}
