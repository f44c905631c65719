// Which action four numbers say, and which is the next of a program.
ghost use Rattle.std.specs.Prelude.{◌≡◌, ◌<◌};
ghost use Rattle.network.specs.Net.{four_at};
ghost use Rattle.machine.specs.Actions.{decode};

use crate::Action;

#[tactic(auto, unfolding(crate::specs::Actions::decode))]
pub fn decode(head: u32, a: u32, b: u32, c: u32) -> Action
    ensures { result ≡ decode (record { head = head; a = a; b = b; c = c }) }
{
    match head {
        0 => Action::Set { a, number: b },
        1 => Action::Add { a, b, c },
        2 => Action::Subtract { a, b, c },
        3 => Action::Read { channel: a, b, c },
        4 => Action::Write { channel: a, b },
        5 => Action::Input { a, b },
        6 => Action::Output { a },
        7 => Action::Skip { a, n: b },
        _ => Action::Unknown,
    }
}

// Action `at` of process p.
pub fn fetch(program: &[u32; 1152], p: usize, at: usize) -> Action
    requires { (p < 12) × (at < 24) }
    ensures { result ≡ decode (four_at program.now p at) }
{
    let i = 96 * p + 4 * at;
    decode(program[i], program[i + 1], program[i + 2], program[i + 3])
}
