// The turns of the frames, frame after frame.
ghost use Rattle.turns.specs.Lent.{FrameNeeds, FrameTurns, RunNeeds, RunTurns};

use crate::planned::Planned;
use crate::turning;
use crate::turning::Turned;
use machine::State;
use marks::Row;

// After the turns of a frame: how many turns have passed in all, how many of the frame's worked, and, if the frame has not ended, how many of its jobs have finished.
#[derive(Clone, Copy, Debug, PartialEq, Eq)]
pub struct FrameTurned {
    pub passed: usize,
    pub working: usize,
    pub jobs: Option<usize>,
}

// After all turns: frames finished, jobs finished in the present frame, and the turns that worked.
#[derive(Clone, Copy, Debug, PartialEq, Eq)]
pub struct Turnings {
    pub frames: usize,
    pub jobs: usize,
    pub working: usize,
}

// The turns of one frame, from turn `from` on, until all its jobs have finished or no turn is left.
fn frame(
    planned: &Planned,
    turns: &[u32],
    from: usize,
    input: &[u32],
    output: &mut [u32],
    state: &mut State,
) -> FrameTurned
    requires { FrameNeeds planned.now turns.now from input.now output.old state.old.variables state.old.words }
    ensures { FrameTurns planned.now turns.now from input.now output.old state.old.variables state.old.words output.new state.new.variables state.new.words result }
{
    let mut processors = turning::all_idle(&planned.first);
    let mut finished = Row::empty();
    let mut working = 0;
    // Kept: a range: `turns.iter().enumerate().skip(from)` is no plainer.
    for t in from..turns.len() {
        let m = turns[t] as usize;
        let processor = &mut processors[m];
        match turning::turn(planned, input, output, state, processor, &mut finished) {
            Turned::Waits => {}
            Turned::Works => working += 1,
            Turned::Ends => {
                return FrameTurned {
                    passed: t + 1,
                    working: working + 1,
                    jobs: None,
                };
            }
        }
    }
    FrameTurned {
        passed: turns.len(),
        working,
        jobs: Some(finished.count() as usize),
    }
}

// So many frames: each has its own part of the input, and its own part of the output. After the last one no turn works.
pub fn run(
    planned: &Planned,
    frames: usize,
    turns: &[u32],
    input: &[u32],
    output: &mut [u32],
    state: &mut State,
) -> Turnings
    requires { RunNeeds planned.now frames turns.now input.now output.old state.old.variables state.old.words }
    ensures { RunTurns planned.now frames turns.now input.now output.old state.old.variables state.old.words output.new state.new.variables state.new.words result }
{
    let width = 2 * planned.jobs;
    let mut passed = 0;
    let mut working = 0;
    for f in 0..frames {
        let from = f * width;
        let to = from + width;
        let turned = frame(
            planned,
            turns,
            passed,
            &input[from..to],
            &mut output[from..to],
            state,
        );
        passed = turned.passed;
        working += turned.working;
        if let Some(jobs) = turned.jobs {
            return Turnings {
                frames: f,
                jobs,
                working,
            };
        }
    }
    Turnings {
        frames,
        jobs: 0,
        working,
    }
}
