// Whether a network is seen to be good, so that the reader would accept its bytes.
ghost use Rattle.std.specs.Prelude.{ℕ, ◌≡◌, true, ◌≤◌, ◌<◌, ◌^◌, IfSome, get_or};
ghost use Rattle.std.specs.List.{list_all, range_with_len};
ghost use Rattle.network.specs.Net.{four_at};
ghost use Rattle.network.specs.Read.{good_action};
ghost use Rattle.writer.specs.Good.{good_process, good_channel, good_program, Few, PairsMarked, GoodEnds, GoodNetwork};

use crate::writing;
use marks::Row;
use network::{Channel, Network, Pair, Process, channels, cycles, frame, pairs, programs};

fn are_few(network: &Network) -> bool
    ensures { result ≡ true → Few network.now.process_count network.now.pair_count network.now.channel_count }
{
    (1..=12).contains(&network.process_count)
        && network.pair_count <= 66
        && network.channel_count <= 16
}

fn good_process(p: &Process) -> bool
    ensures { result ≡ good_process p.now }
{
    (1..=1000).contains(&p.period)
        && (1..=4).contains(&p.burst)
        && (1..=p.period).contains(&p.deadline)
        && (1..=p.deadline).contains(&p.budget)
}

fn good_processes(processes: &[Process]) -> bool
    ensures { result ≡ list_all good_process processes.now }
{
    processes.iter().all(|p| good_process(p))
}

// The rows of marks of pairs of n processes, if they are good: row a marks b where a-b is a pair.
fn rows_of(n: u32, pairs: &[Pair]) -> Option<[Row; 12]>
    requires { n ≤ 12 }
    ensures { IfSome result (λ rows. PairsMarked n pairs.now rows) }
{
    let mut rows = pairs::no_rows();
    for pair in pairs {
        if !pairs::are_apart(n, pair.higher, pair.lower) {
            return None;
        }
        let higher = pair.higher as usize;
        let lower = pair.lower as usize;
        let row = rows[higher];
        if row.has(lower) {
            return None;
        }
        rows[higher] = row.with(lower);
    }
    Some(rows)
}

// A channel between n processes whose pairs are marked in the rows.
fn good_channel(n: u32, rows: &[Row; 12], c: &Channel) -> bool
    requires { n ≤ 12 }
    ensures { result ≡ good_channel n rows.now c.now }
{
    c.kind <= 1
        && (1..=channels::most_capacity(c.kind)).contains(&c.capacity)
        && channels::are_paired(*rows, n, c.writer, c.reader)
}

fn good_channels(n: u32, rows: &[Row; 12], channels: &[Channel]) -> bool
    requires { n ≤ 12 }
    ensures { result ≡ list_all (good_channel n rows.now) channels.now }
{
    channels.iter().all(|c| good_channel(n, rows, c))
}

// The pairs and channels of n processes.
fn good_ends(n: u32, pairs: &[Pair], channels: &[Channel]) -> bool
    requires { n ≤ 12 }
    ensures { result ≡ true → GoodEnds n pairs.now channels.now }
{
    match rows_of(n, pairs) {
        Some(rows) => !cycles::has_cycle(rows, n as usize) && good_channels(n, &rows, channels),
        None => false,
    }
}

// Action k of n of process p.
fn good_action(channels: &[Channel], p: usize, n: usize, k: usize, actions: &[u32; 1152]) -> bool
    requires { (p < 12) × (n ≤ 24) × (k < n) }
    ensures { result ≡ good_action channels.now p n k (four_at actions.now p k) }
{
    let four = writing::four_at(actions, p, k);
    let channel = programs::named(channels, four.a);
    programs::good_action(four, channel, p as u32, n, k)
}

// The n actions of process p.
fn good_actions(channels: &[Channel], p: usize, n: usize, actions: &[u32; 1152]) -> bool
    requires { (p < 12) × (n ≤ 24) }
    ensures { result ≡ list_all (λ k. good_action channels.now p n k (four_at actions.now p k)) (range_with_len 0 n) }
{
    (0..n).all(|k| good_action(channels, p, n, k, actions))
}

// The program of process p, of as many actions as a count says.
fn good_program(channels: &[Channel], p: usize, count: u32, actions: &[u32; 1152]) -> bool
    requires { p < 12 }
    ensures { result ≡ good_program channels.now p count actions.now }
{
    count <= 24 && good_actions(channels, p, count as usize, actions)
}

// The programs of n processes. `fit` is what the type of the actions says, for the caller's proof.
fn good_programs(channels: &[Channel], n: usize, counts: &[u32; 12], actions: &[u32; 1152]) -> bool
    requires { n ≤ 12 }
    ensures value { result ≡ list_all (λ p. good_program channels.now p (get_or counts.now p 0) actions.now) (range_with_len 0 n) }
    ensures fit { (i : ℕ) → get_or actions.now i 0 < 2 ^ 32 }
{
    (0..n).all(|p| good_program(channels, p, counts[p], actions))
}

pub fn is_good(network: &Network) -> bool
    ensures { result ≡ true → GoodNetwork network.now }
{
    let n = network.process_count;
    let processes = network.processes();
    let channels = network.channels();
    are_few(network)
        && good_processes(processes)
        && frame::fits_frame(processes)
        && good_ends(n, network.pairs(), channels)
        && good_programs(
            channels,
            n as usize,
            &network.action_counts,
            &network.actions,
        )
}
