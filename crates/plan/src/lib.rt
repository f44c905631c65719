// Plans: the planner, and the checker of any plan, whoever made it.
#![tactic(auto)]

pub mod checking;
pub mod planning;
pub mod standing;

ghost use Rattle.std.specs.Prelude.{◌≡◌, ◌≤◌};
ghost use Rattle.reply.specs.Result.{answer_of};
ghost use Rattle.reply.specs.Told.{told, judged};
ghost use Rattle.graph.specs.FrameOf.{FrameOf, work_in};
ghost use Rattle.plan.specs.Plan.{plan_work, plan_call, plan_filled, check_work, check_call};

use graph::Framed;
use reply::{Answer, Refusal};

// A plan of an accepted frame: it has to be long enough, and without a fault.
fn check_framed(framed: &Framed, processors: u32, plan: &[u32]) -> Result<(), Refusal>
    requires { FrameOf framed.now }
    ensures { result ≡ judged (check_work (work_in framed.now) processors plan.now) }
{
    let n = framed.job_count as usize;
    reply::calls::room(2 * n, plan.len())?;
    checking::judge(&framed.jobs, &framed.before, n, processors, plan)
}

// A plan of a file's network: the range of the processors, the file, and then the plan.
fn check_file(file: &[u8], processors: u32, plan: &[u32]) -> Result<(), Refusal>
    ensures { result ≡ judged (check_call file.now processors plan.now) }
{
    reply::calls::processors(processors)?;
    let framed = graph::frame(file);
    framed.answer.ok()?;
    check_framed(&framed, processors, plan)
}

// Checks a plan of a file's network: the least faulty job, and its first fault.
// Kept: an answer in place of a result, since theorem P10 and the C function fppn_check speak of its reply and place.
pub fn check(file: &[u8], processors: u32, plan: &[u32]) -> Answer
    ensures { result ≡ answer_of (check_call file.now processors plan.now) }
{
    Answer::from(check_file(file, processors, plan))
}

// Plans an accepted frame: there has to be room for the plan.
fn plan_framed(framed: &Framed, processors: u32, out: &mut [u32]) -> Result<(), Refusal>
    requires { FrameOf framed.now × (1 ≤ processors) × (processors ≤ 4) }
    ensures result { result ≡ told (λ words. tt) (plan_work (work_in framed.now) processors out.old) }
    ensures filled { out.new ≡ plan_filled (plan_work (work_in framed.now) processors out.old) out.old }
{
    let n = framed.job_count as usize;
    reply::calls::room(2 * n, out.len())?;
    let words = planning::place_all(framed, processors as usize)?;
    out[..2 * n].copy_from_slice(&words[..2 * n]);
    Ok(())
}

// Plans a file's network: the range of the processors, the file, and then the planner.
fn plan_file(file: &[u8], processors: u32, out: &mut [u32]) -> Result<(), Refusal>
    ensures result { result ≡ told (λ words. tt) (plan_call file.now processors out.old) }
    ensures filled { out.new ≡ plan_filled (plan_call file.now processors out.old) out.old }
{
    reply::calls::processors(processors)?;
    let framed = graph::frame(file);
    framed.answer.ok()?;
    plan_framed(&framed, processors, out)
}

// Plans a file's network: two words for each job, from the front of `out`.
// Kept: an answer in place of a result, since theorem P10 and the C function fppn_plan speak of its reply and place.
pub fn plan(file: &[u8], processors: u32, out: &mut [u32]) -> Answer
    ensures result { result ≡ answer_of (plan_call file.now processors out.old) }
    ensures filled { out.new ≡ plan_filled (plan_call file.now processors out.old) out.old }
{
    Answer::from(plan_file(file, processors, out))
}
