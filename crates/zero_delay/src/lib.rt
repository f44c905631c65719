// The zero-delay run: the jobs of a network one after another in sequence, frame after frame.
#![tactic(auto)]

mod frames;

ghost use Rattle.std.specs.Prelude.{◌≡◌, ◌*◌, ◌≤◌};
ghost use Rattle.reply.specs.Result.{done};
ghost use Rattle.reply.specs.Told.{told};
ghost use Rattle.graph.specs.Work.{job_count_of};
ghost use Rattle.graph.specs.FrameOf.{FrameOf, work_in};
ghost use Rattle.zero_delay.specs.ZeroDelay.{ran_jobs, run_work, zero_delay, ran_of, filled_by};
ghost use Rattle.zero_delay.specs.Calls.{ran_after, Admitted};

use graph::Framed;
use machine::{Held, State, Tables, report, samples};
use reply::{Answer, Refusal, calls};

// What the run returns, all zero when it is refused: the variables, eight for each process, and what the channels hold.
#[derive(Clone, Copy, Debug, PartialEq, Eq)]
pub struct Ran {
    pub answer: Answer,
    pub variables: [u32; 96],
    pub channels: [Held; 16],
}

// The run of a frame's jobs, with all that it needs.
fn run_admitted(framed: &Framed, frames: usize, input: &[u32], output: &mut [u32]) -> Ran
    requires { Admitted framed.now frames input.now output.old }
    ensures result { result ≡ ran_after (ran_jobs (work_in framed.now) input.now (job_count_of (work_in framed.now) * frames)) }
    ensures filled { output.new ≡ filled_by (done (ran_jobs (work_in framed.now) input.now (job_count_of (work_in framed.now) * frames))) output.old }
{
    let tables = Tables::of(&framed.network);
    let jobs = &framed.jobs[..framed.job_count as usize];
    let mut state = State::empty();
    frames::run(&tables, jobs, frames, input, output, &mut state);
    Ran {
        answer: Answer::done(),
        variables: state.variables,
        channels: report::held(&state.words),
    }
}

// The run of an accepted frame: input and output have to be long enough, and the samples good.
fn run_framed(
    framed: &Framed,
    frames: usize,
    input: &[u32],
    output: &mut [u32],
) -> Result<Ran, Refusal>
    requires { FrameOf framed.now × (frames ≤ 100) }
    ensures result { result ≡ told ran_after (run_work (work_in framed.now) frames input.now output.old) }
    ensures filled { output.new ≡ filled_by (run_work (work_in framed.now) frames input.now output.old) output.old }
{
    let count = framed.job_count as usize * frames;
    calls::room(2 * count, input.len())?;
    calls::room(2 * count, output.len())?;
    samples::judge(input, count)?;
    Ok(run_admitted(framed, frames, input, output))
}

// The run of a file's network.
fn run_file(file: &[u8], frames: u32, input: &[u32], output: &mut [u32]) -> Result<Ran, Refusal>
    ensures result { result ≡ told ran_after (zero_delay file.now frames input.now output.old) }
    ensures filled { output.new ≡ filled_by (zero_delay file.now frames input.now output.old) output.old }
{
    calls::frames(frames)?;
    let framed = graph::frame(file);
    framed.answer.ok()?;
    run_framed(&framed, frames as usize, input, output)
}

// The run of a file's network for so many frames; the output words of its jobs are filled from the front.
pub fn run(file: &[u8], frames: u32, input: &[u32], output: &mut [u32]) -> Ran
    ensures result { result ≡ ran_of (zero_delay file.now frames input.now output.old) }
    ensures filled { output.new ≡ filled_by (zero_delay file.now frames input.now output.old) output.old }
{
    match run_file(file, frames, input, output) {
        Ok(ran) => ran,
        Err(refusal) => Ran {
            answer: Answer::from(refusal),
            variables: [0; 96],
            channels: report::no_held(),
        },
    }
}
