// The turn run: each turn names a processor, which starts its next job in planned order, does one action of its job, or waits.
#![tactic(auto)]

mod frames;
mod judging;
mod order;
mod planned;
mod turning;

ghost use Rattle.std.specs.Prelude.{◌≡◌, ◌≤◌};
ghost use Rattle.reply.specs.Result.{done};
ghost use Rattle.reply.specs.Told.{told};
ghost use Rattle.graph.specs.FrameOf.{FrameOf, work_in};
ghost use Rattle.promises.specs.Turns.{turn_work, turn_call};
ghost use Rattle.turns.specs.Turned.{turned_of, turn_filled};
ghost use Rattle.turns.specs.Calls.{refused_with, turn_ran, ran_in, Admitted};
ghost use Rattle.turns.specs.Promise.{KeepsPromise};

use crate::planned::Planned;
use graph::Framed;
use machine::{Held, State, report, samples};
use plan::checking;
use reply::{Answer, Refusal, calls};

// What the run returns, all zero when it is refused: the frames finished, the jobs finished in the present frame, the working and the waiting turns,
// the variables, eight for each process, and what the channels hold.
#[derive(Clone, Copy, Debug, PartialEq, Eq)]
pub struct TurnRan {
    pub answer: Answer,
    pub frames: usize,
    pub jobs: usize,
    pub working: usize,
    pub waiting: usize,
    pub variables: [u32; 96],
    pub channels: [Held; 16],
}

// What a run is asked for, beside its network.
#[derive(Clone, Copy)]
struct Asked<'a> {
    processors: u32,
    frames: u32,
    plan: &'a [u32],
    input: &'a [u32],
    turns: &'a [u32],
}

fn refused(refusal: Refusal) -> TurnRan
    ensures { result ≡ refused_with refusal }
{
    TurnRan {
        answer: Answer::from(refusal),
        frames: 0,
        jobs: 0,
        working: 0,
        waiting: 0,
        variables: [0; 96],
        channels: report::no_held(),
    }
}

// The run of a frame's jobs, with all that it needs.
fn run_admitted(framed: &Framed, asked: &Asked, output: &mut [u32]) -> TurnRan
    requires { Admitted framed.now asked.now.frames asked.now.plan.now asked.now.input.now asked.now.turns.now output.old }
    ensures result { result ≡ turn_ran (ran_in framed.now asked.now.frames asked.now.plan.now asked.now.input.now asked.now.turns.now) }
    ensures filled { output.new ≡ turn_filled (done (ran_in framed.now asked.now.frames asked.now.plan.now asked.now.input.now asked.now.turns.now)) output.old }
{
    let frames = asked.frames as usize;
    let planned = Planned::of(framed, asked.plan);
    let mut state = State::empty();
    output[..2 * (planned.jobs * frames)].fill(0);
    let turned = frames::run(
        &planned,
        frames,
        asked.turns,
        asked.input,
        output,
        &mut state,
    );
    TurnRan {
        answer: Answer::done(),
        frames: turned.frames,
        jobs: turned.jobs,
        working: turned.working,
        waiting: asked.turns.len() - turned.working,
        variables: state.variables,
        channels: report::held(&state.words),
    }
}

// The run of an accepted frame: plan, input and output have to be long enough, and plan, samples and turns good.
fn run_framed(framed: &Framed, asked: &Asked, output: &mut [u32]) -> Result<TurnRan, Refusal>
    requires { FrameOf framed.now × (asked.now.processors ≤ 4) × (asked.now.frames ≤ 100) }
    ensures result { result ≡ told turn_ran (turn_work (work_in framed.now) asked.now.processors asked.now.frames asked.now.plan.now asked.now.input.now asked.now.turns.now output.old) }
    ensures filled { output.new ≡ turn_filled (turn_work (work_in framed.now) asked.now.processors asked.now.frames asked.now.plan.now asked.now.input.now asked.now.turns.now output.old) output.old }
{
    let jobs = framed.job_count as usize;
    let count = jobs * asked.frames as usize;
    calls::room(2 * jobs, asked.plan.len())?;
    calls::room(2 * count, asked.input.len())?;
    calls::room(2 * count, output.len())?;
    checking::judge(
        &framed.jobs,
        &framed.before,
        jobs,
        asked.processors,
        asked.plan,
    )?;
    samples::judge(asked.input, count)?;
    judging::judge(asked.turns, asked.processors)?;
    Ok(run_admitted(framed, asked, output))
}

// The run of a file's network, or why it is refused.
fn run_file(file: &[u8], asked: &Asked, output: &mut [u32]) -> Result<TurnRan, Refusal>
    ensures result { result ≡ told turn_ran (turn_call file.now asked.now.processors asked.now.frames asked.now.plan.now asked.now.input.now asked.now.turns.now output.old) }
    ensures filled { output.new ≡ turn_filled (turn_call file.now asked.now.processors asked.now.frames asked.now.plan.now asked.now.input.now asked.now.turns.now output.old) output.old }
{
    calls::processors(asked.processors)?;
    calls::frames(asked.frames)?;
    let framed = graph::frame(file);
    framed.answer.ok()?;
    run_framed(&framed, asked, output)
}

// The run of a file's network by a plan for so many processors, for so many frames and turns; the output words of its jobs are filled from the front.
pub fn run(
    file: &[u8],
    processors: u32,
    frames: u32,
    plan: &[u32],
    input: &[u32],
    turns: &[u32],
    output: &mut [u32],
) -> TurnRan
    ensures result { result ≡ turned_of (turn_call file.now processors frames plan.now input.now turns.now output.old) }
    ensures filled { output.new ≡ turn_filled (turn_call file.now processors frames plan.now input.now turns.now output.old) output.old }
    ensures promise { KeepsPromise file.now processors frames plan.now input.now turns.now output.old result output.new }
{
    let asked = Asked {
        processors,
        frames,
        plan,
        input,
        turns,
    };
    match run_file(file, &asked, output) {
        Ok(ran) => ran,
        Err(refusal) => refused(refusal),
    }
}
