// What an action may be: its operands, kind by kind.
ghost use Rattle.std.specs.Prelude.{◌≡◌, ◌<◌};
ghost use Rattle.network.specs.Read.{is_var, is_zero, is_skip};
ghost use Rattle.network.specs.ProgramsTold.{named, Judged};

use crate::{Channel, Four};

// The channel of this number, if there is one.
pub fn named(channels: &[Channel], number: u32) -> Option<Channel>
    ensures { result ≡ named channels.now number }
{
    channels.get(number as usize).copied()
}

fn is_var(a: u32) -> bool
    ensures { result ≡ is_var a }
{
    a < 8
}

fn is_zero(a: u32) -> bool
    ensures { result ≡ is_zero a }
{
    a == 0
}

// Action k of n skips so many, at least one, and not past the end.
fn is_skip(n: usize, k: usize, skipped: u32) -> bool
    requires { k < n }
    ensures { result ≡ is_skip n k skipped }
{
    let left = n - (k + 1);
    1 <= skipped && skipped as usize <= left
}

// Whether action k of n of process p is good. `channel` is the one that its first operand names, if it names one.
#[tactic(auto, unfolding(crate::specs::Read::good_action))]
pub fn good_action(four: Four, channel: Option<Channel>, p: u32, n: usize, k: usize) -> bool
    requires { k < n }
    ensures { Judged channel p n k four result }
{
    let Four { head, a, b, c } = four;
    match head {
        0 => is_var(a) && is_zero(c),
        1 | 2 => is_var(a) && is_var(b) && is_var(c),
        3 => channel.is_some_and(|read| read.reader == p) && is_var(b) && is_var(c),
        4 => channel.is_some_and(|written| written.writer == p) && is_var(b) && is_zero(c),
        5 => is_var(a) && is_var(b) && is_zero(c),
        6 => is_var(a) && is_zero(b) && is_zero(c),
        7 => is_var(a) && is_skip(n, k, b) && is_zero(c),
        _ => false,
    }
}
