// The jobs of the frames, one after another in sequence.
ghost use Rattle.std.specs.Prelude.{◌*◌, ◌≤◌, length};
ghost use Rattle.machine.specs.Words.{SoundWords};
ghost use Rattle.machine.specs.Acting.{kinds_in, Room};
ghost use Rattle.zero_delay.specs.Lent.{processes_in, Ready, FramesReady, FrameDone, FramesDone};

use graph::Job;
use machine::{State, Tables, samples};

// One frame: job j has sample j of the frame's input, and its output goes to sample j of the frame's output.
fn frame(tables: &Tables, jobs: &[Job], input: &[u32], output: &mut [u32], state: &mut State)
    requires ready { Ready tables.now.program tables.now.counts (kinds_in tables.now.channels) (processes_in jobs.now) (length jobs.now) }
    requires room { (2 * length jobs.now ≤ length input.now) × (2 * length jobs.now ≤ length output.old) × SoundWords state.old.words × Room state.old.words (24 * length jobs.now) }
    ensures { FrameDone tables.now.program tables.now.counts (kinds_in tables.now.channels) (processes_in jobs.now) (length jobs.now) input.now output.old state.old.variables state.old.words output.new state.new.variables state.new.words }
{
    for (j, job) in jobs.iter().enumerate() {
        let sample = samples::get(input, j);
        let gives = machine::job(tables, job.process as usize, sample, state);
        samples::put(output, j, gives);
    }
}

// So many frames: each has its own part of the input, and its own part of the output.
pub fn run(
    tables: &Tables,
    jobs: &[Job],
    frames: usize,
    input: &[u32],
    output: &mut [u32],
    state: &mut State,
)
    requires ready { Ready tables.now.program tables.now.counts (kinds_in tables.now.channels) (processes_in jobs.now) (length jobs.now) }
    requires frames_ready { FramesReady (length jobs.now) frames input.now output.old state.old.words }
    ensures { FramesDone tables.now.program tables.now.counts (kinds_in tables.now.channels) (processes_in jobs.now) (length jobs.now) frames input.now output.old state.old.variables state.old.words output.new state.new.variables state.new.words }
{
    let width = 2 * jobs.len();
    for f in 0..frames {
        let from = f * width;
        let to = from + width;
        frame(tables, jobs, &input[from..to], &mut output[from..to], state);
    }
}
