// Runs the cases that the rules give and that are not proved as starred ones, and others at the edges of the rules.
// Each prints a line; the whole is held to the crate's file `stdout`.
#![tactic(auto)]

mod files;
mod graphs;
mod k;
mod lent;
mod listings;
mod longest;
mod numbers;
mod plans;
mod runs;
mod times;
mod turn_runs;

use std::io;

fn main(rt: HostRuntime) -> io::Result<()> {
    numbers::run(&rt)?;
    files::run(&rt)?;
    graphs::run(&rt)?;
    runs::run(&rt)?;
    lent::run(&rt)?;
    plans::run(&rt)?;
    turn_runs::run(&rt)?;
    times::run(&rt)?;
    listings::run(&rt)
}
