// The checker on the tables of a frame's work: the least faulty job of a plan, and its first fault.
ghost use Rattle.std.specs.Prelude.{◌≡◌, ◌+◌, ◌*◌, ◌^◌, ◌<◌, ◌≤◌, length};
ghost use Rattle.plan.specs.Plan.{start_at};
ghost use Rattle.plan.specs.CheckTold.{stay_by, own_fault, overlapping, soon_or, Checkable, Judged};

use graph::Job;
use marks::Row;
use reply::{Refusal, Reply};

// Where a plan puts a job: its processor, its start and its end.
#[derive(Clone, Copy)]
struct Stay {
    processor: u32,
    start: u32,
    end: u32,
}

// Where a plan puts job j, which takes its budget.
fn stay_of(plan: &[u32], j: usize, budget: u32) -> Stay
    requires there { 2 * j + 1 < length plan.now }
    requires fits { start_at plan.now j + budget < 2 ^ 32 }
    ensures { result ≡ stay_by plan.now j budget }
{
    let start = plan[2 * j + 1];
    Stay {
        processor: plan[2 * j],
        start,
        end: start + budget,
    }
}

// The first fault of a job by itself, 11 to 13. Its end is not computed: a start may be near the greatest number.
#[tactic(auto, unfolding(crate::specs::CheckTold::own_fault))]
fn own_fault(processor: u32, start: u32, job: &Job, processors: u32) -> Option<Reply>
    requires { job.now.budget ≤ job.now.deadline }
    ensures { result ≡ own_fault processor start job.now processors }
{
    if processors <= processor {
        return Some(Reply::WrongProcessor);
    }
    if start < job.release {
        return Some(Reply::BeforeRelease);
    }
    if start > job.deadline - job.budget {
        return Some(Reply::EndsLate);
    }
    None
}

// Whether two jobs are on one processor, and each starts before the other ends.
#[tactic(auto, unfolding(crate::specs::CheckTold::overlapping))]
fn overlaps(lower: Stay, stay: Stay) -> bool
    ensures { result ≡ overlapping lower stay }
{
    lower.processor == stay.processor && lower.start < stay.end && stay.start < lower.end
}

// Whether a job starts before another ends that precedes it, or did so before one that was looked at earlier.
#[tactic(auto, unfolding(crate::specs::CheckTold::soon_or))]
fn too_soon(earlier: bool, precedes: bool, start: u32, to: u32) -> bool
    ensures { result ≡ soon_or earlier precedes start to }
{
    earlier || (precedes && start < to)
}

// The least faulty job of a plan and its first fault: job after job, and for each its lower-numbered jobs. Row j marks every job that precedes job j.
pub fn judge(
    jobs: &[Job; 128],
    rows: &[Row; 128],
    n: usize,
    processors: u32,
    plan: &[u32],
) -> Result<(), Refusal>
    requires { Checkable jobs.now rows.now n plan.now }
    ensures { Judged jobs.now rows.now n processors plan.now result }
{
    let fault = 'jobs: {
        for j in 0..n {
            if let Some(reply) = own_fault(plan[2 * j], plan[2 * j + 1], &jobs[j], processors) {
                break 'jobs Some((j, reply));
            }
            let stay = stay_of(plan, j, jobs[j].budget);
            let mut soon = false;
            for i in 0..j {
                let lower = stay_of(plan, i, jobs[i].budget);
                // Most lower jobs have ended by then, and of those neither holds.
                if lower.end <= stay.start {
                    continue;
                }
                if overlaps(lower, stay) {
                    break 'jobs Some((j, Reply::Overlaps));
                }
                soon = too_soon(soon, rows[j].has(i), stay.start, lower.end);
            }
            if soon {
                break 'jobs Some((j, Reply::BeforePredecessor));
            }
        }
        None
    };
    match fault {
        None => Ok(()),
        Some((place, reply)) => Err(Refusal { reply, place }),
    }
}
