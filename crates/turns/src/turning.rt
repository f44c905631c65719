// One turn of a processor within a frame.
ghost use Rattle.std.specs.Prelude.{◌≡◌, ◌*◌, ◌≤◌, ◌<◌, length, map};
ghost use Rattle.turns.specs.Lent.{idle_at, came_to, stands_at, marks_of, left_by, TurnNeeds, TurnDone};

use crate::planned::Planned;
use machine::{State, Under, samples};
use marks::Row;

// A processor in a frame.
#[derive(Clone, Copy, Debug, PartialEq, Eq)]
pub enum Processor {
    // None of its jobs is left.
    NoneLeft,
    // Its next job in planned order has not started.
    Next(usize),
    // Its next job is under way, with what it keeps.
    UnderWay(usize, Under),
}

// What a turn does.
#[derive(Clone, Copy, Debug, PartialEq, Eq)]
pub enum Turned {
    Waits,
    Works,
    // It works, and finishes the frame's last job.
    Ends,
}

// A processor that has no job under way, by its next job.
impl From<Option<usize>> for Processor {
    ghost from_gives = { λ next processor. processor ≡ idle_at next };

    fn from(next: Option<usize>) -> Processor {
        match next {
            None => Processor::NoneLeft,
            Some(j) => Processor::Next(j),
        }
    }
}

// The four processors at the start of a frame.
pub fn all_idle(first: &[Option<usize>; 4]) -> [Processor; 4]
    ensures { result ≡ map idle_at first.now }
{
    first.map(Processor::from)
}

// Job j comes to `under` by a working turn. It is under way, or it reaches the end of its `count` actions: then it leaves its output.
fn comes_to(
    planned: &Planned,
    j: usize,
    count: usize,
    under: Under,
    output: &mut [u32],
    processor: &mut Processor,
    finished: &mut Row,
) -> Turned
    requires { (j < planned.now.jobs) × (planned.now.jobs ≤ 128) × (2 * planned.now.jobs ≤ length output.old) }
    ensures result { result ≡ came_to planned.now j count under finished.old }
    ensures left { output.new ≡ left_by j count under output.old }
    ensures stands { processor.new ≡ stands_at planned.now j count under }
    ensures marks { finished.new ≡ marks_of j count under finished.old }
{
    if under.at < count {
        *processor = Processor::UnderWay(j, under);
        return Turned::Works;
    }
    samples::put(output, j, under.output);
    *processor = Processor::from(planned.after[j]);
    *finished = finished.with(j);
    if finished.count() as usize == planned.jobs {
        return Turned::Ends;
    }
    Turned::Works
}

// A turn of a processor: a job under way does one action; else the next job starts, if all before it have finished.
pub fn turn(
    planned: &Planned,
    input: &[u32],
    output: &mut [u32],
    state: &mut State,
    processor: &mut Processor,
    finished: &mut Row,
) -> Turned
    requires { TurnNeeds planned.now input.now output.old state.old.words processor.old }
    ensures { TurnDone planned.now input.now output.old state.old.variables state.old.words processor.old finished.old output.new state.new.variables state.new.words processor.new finished.new result }
{
    match *processor {
        Processor::NoneLeft => Turned::Waits,
        Processor::Next(j) => {
            if !planned.before[j].inside(*finished) {
                return Turned::Waits;
            }
            let count = planned.tables.counts[planned.processes[j] as usize] as usize;
            comes_to(
                planned,
                j,
                count,
                Under::start(),
                output,
                processor,
                finished,
            )
        }
        Processor::UnderWay(j, under) => {
            let p = planned.processes[j] as usize;
            let count = planned.tables.counts[p] as usize;
            let sample = samples::get(input, j);
            let until = under.at + 1;
            let acted = machine::go_on(&planned.tables, p, until, under, sample, state);
            comes_to(planned, j, count, acted, output, processor, finished)
        }
    }
}
