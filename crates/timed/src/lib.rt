// The timed run: the starts and ends of a frame's jobs on a plan, with a duration up to the budget for each job.
#![tactic(auto)]

mod durations;
mod timing;

ghost use Rattle.std.specs.Prelude.{◌≡◌, ◌*◌, ◌≤◌, length};
ghost use Rattle.reply.specs.Result.{answer_of};
ghost use Rattle.reply.specs.Told.{told, judged};
ghost use Rattle.graph.specs.FrameOf.{FrameOf, work_in};
ghost use Rattle.timed.specs.Timed.{ok_timed, timed_work, timed_call, timed_filled, KeepsTime, InTime};

use graph::Framed;
use plan::checking;
use reply::{Answer, Refusal};

// Judges a plan and durations for an accepted frame: the least faulty job of the plan, and then the least job whose duration is above its budget.
fn judge(framed: &Framed, processors: u32, plan: &[u32], durations: &[u32]) -> Result<(), Refusal>
    requires { FrameOf framed.now × (2 * framed.now.job_count ≤ length plan.now) × (framed.now.job_count ≤ length durations.now) }
    ensures { result ≡ judged (ok_timed (work_in framed.now) processors plan.now durations.now) }
{
    let n = framed.job_count as usize;
    checking::judge(&framed.jobs, &framed.before, n, processors, plan)?;
    durations::judge(&framed.jobs, n, durations)
}

// The timed run of an accepted frame: plan, durations and `out` have to be long enough, and plan and durations good.
fn run_framed(
    framed: &Framed,
    processors: u32,
    plan: &[u32],
    durations: &[u32],
    out: &mut [u32],
) -> Result<(), Refusal>
    requires { FrameOf framed.now × (1 ≤ processors) × (processors ≤ 4) }
    ensures result { result ≡ told (λ times. tt) (timed_work (work_in framed.now) processors plan.now durations.now out.old) }
    ensures filled { out.new ≡ timed_filled (timed_work (work_in framed.now) processors plan.now durations.now out.old) out.old }
{
    let n = framed.job_count as usize;
    reply::calls::room(2 * n, plan.len())?;
    reply::calls::room(n, durations.len())?;
    reply::calls::room(2 * n, out.len())?;
    judge(framed, processors, plan, durations)?;
    let words = timing::time_all(framed, plan, durations);
    out[..2 * n].copy_from_slice(&words[..2 * n]);
    Ok(())
}

// The timed run of a file's network: the range of the processors, the file, and then the run.
fn run_file(
    file: &[u8],
    processors: u32,
    plan: &[u32],
    durations: &[u32],
    out: &mut [u32],
) -> Result<(), Refusal>
    ensures result { result ≡ told (λ times. tt) (timed_call file.now processors plan.now durations.now out.old) }
    ensures filled { out.new ≡ timed_filled (timed_call file.now processors plan.now durations.now out.old) out.old }
{
    reply::calls::processors(processors)?;
    let framed = graph::frame(file);
    framed.answer.ok()?;
    run_framed(&framed, processors, plan, durations, out)
}

// The timed run of a file's network on a plan: start and end of each job, two words for each, from the front of `out`.
// Kept: an answer in place of a result, since theorem P10 and the C function fppn_timed speak of its reply and place.
pub fn run(file: &[u8], processors: u32, plan: &[u32], durations: &[u32], out: &mut [u32]) -> Answer
    ensures result { result ≡ answer_of (timed_call file.now processors plan.now durations.now out.old) }
    ensures filled { out.new ≡ timed_filled (timed_call file.now processors plan.now durations.now out.old) out.old }
    ensures timed { KeepsTime file.now plan.now durations.now result out.new }
    ensures in_time { InTime file.now result out.new }
{
    Answer::from(run_file(file, processors, plan, durations, out))
}
