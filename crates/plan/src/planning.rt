// The planner on the tables of a frame's work: job after job, each on the processor where it starts earliest.
ghost use Rattle.std.specs.Prelude.{◌≡◌, ℕ, suc, ◌*◌, ◌≤◌, ◌<◌, max};
ghost use Rattle.reply.specs.Tools.{pick};
ghost use Rattle.plan.specs.Plan.{any_processor};
ghost use Rattle.plan.specs.PlanTold.{can_by, picked_of, beats, LeastOf, choice_by, ready_by, start_by, NextIs, HasChoice, Placeable, Stepped, PlansAll, AllPlaced};

use crate::standing::Standing;
use graph::Framed;
use marks::Row;
use reply::{Refusal, Reply};

// A job that is chosen, its processor, and its start there.
#[derive(Clone, Copy)]
struct Next {
    job: usize,
    processor: usize,
    start: u32,
}

// Whether a job can be placed: it is not placed yet, and its predecessors are.
fn can_place(placed: Row, row: Row, j: usize) -> bool
    ensures { result ≡ can_by placed row j }
{
    !placed.has(j) && row.inside(placed)
}

// Whether a key is less than that of the best number so far, if there is one.
fn beats(best: Option<(usize, u32)>, key: u32) -> bool
    ensures { result ≡ beats best key }
{
    match best {
        Some((_, least)) => key < least,
        None => true,
    }
}

// Of the numbers below n that pass a test that of least key, then the least number. Only one of a lesser key is tested, since the test may cost more than the key.
pub fn least<Q: Fn(usize) -> bool, K: Fn(usize) -> u32>(
    n: usize,
    passes: Q,
    key: K,
) -> Option<usize>
    requires passes { (j : ℕ) → j < n → Q.pre passes j }
    requires key { (j : ℕ) → j < n → K.pre key j }
    ensures { LeastOf (Q.post passes) (K.post key) n result }
{
    let mut best = None;
    for j in 0..n {
        let here = key(j);
        if beats(best, here) && passes(j) {
            best = Some((j, here));
        }
    }
    best.map(|(b, _)| b)
}

// The job to place next: of those that can be placed that of least deadline, then of least number.
fn choose(framed: &Framed, placed: Row) -> Option<usize>
    requires { framed.now.job_count ≤ 128 }
    ensures { result ≡ picked_of (choice_by framed.now placed framed.now.job_count) }
{
    least(
        framed.job_count as usize,
        |j| can_place(placed, framed.before[j], j),
        |j| framed.jobs[j].deadline,
    )
}

// The later of the job's release and the ends of the jobs below j that its row marks.
pub fn ready_at(ends: &[u32; 128], row: Row, j: usize, release: u32) -> u32
    requires { j ≤ 128 }
    ensures { result ≡ ready_by ends.now row j release }
{
    let mut ready = release;
    for i in 0..j {
        if row.has(i) {
            ready = ready.max(ends[i]);
        }
    }
    ready
}

// The processor where a job that is ready starts earliest; of those that tie the smallest.
fn earliest(last: &[u32; 4], processors: usize, ready: u32) -> Option<usize>
    requires { processors ≤ 4 }
    ensures { result ≡ picked_of (pick any_processor (start_by last.now ready) processors) }
{
    least(processors, |_| true, |p| ready.max(last[p]))
}

// The next job to place, its processor, and its start there.
fn find_next(framed: &Framed, processors: usize, placed: &Standing) -> Next
    requires { HasChoice framed.now processors placed.now.jobs }
    ensures { NextIs framed.now processors placed.now result }
{
    let job = choose(framed, placed.jobs).unwrap();
    let ready = ready_at(
        &placed.ends,
        framed.before[job],
        job,
        framed.jobs[job].release,
    );
    let processor = earliest(&placed.last, processors, ready).unwrap();
    let start = ready.max(placed.last[processor]);
    Next {
        job,
        processor,
        start,
    }
}

// The next job is placed; or it misses its deadline.
fn place_next(framed: &Framed, processors: usize, placed: &mut Standing) -> Result<(), Refusal>
    requires { Placeable framed.now processors placed.old }
    ensures { Stepped framed.now processors placed.old result placed.new }
{
    let next = find_next(framed, processors, placed);
    let end = next.start + framed.jobs[next.job].budget;
    if framed.jobs[next.job].deadline < end {
        return Err(Refusal {
            reply: Reply::MissesDeadline,
            place: next.job,
        });
    }
    let words = [next.processor as u32, next.start];
    placed.stand(next.job, next.processor, words, end);
    Ok(())
}

// The plan of a frame's jobs; or the first job placed that misses its deadline.
pub fn place_all(framed: &Framed, processors: usize) -> Result<[u32; 256], Refusal>
    requires { PlansAll framed.now processors }
    ensures { AllPlaced framed.now processors result }
{
    let mut placed = Standing::nothing();
    for _ in 0..framed.job_count {
        place_next(framed, processors, &mut placed)?;
    }
    Ok(placed.words)
}
