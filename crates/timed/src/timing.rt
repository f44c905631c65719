// The times of a frame's jobs, on the tables of its work: job after job in the order of their planned starts.
ghost use Rattle.marks.specs.Row.{no_marks};
ghost use Rattle.timed.specs.TimedTold.{StartsSmall, KeysTell, Chooses, lent, TimesNext, Stepped, TimesAll, AllTimed};

use graph::Framed;
use plan::planning;
use plan::standing::Standing;

// The key of a job that is timed, and of no job; it is above all others.
const TIMED: u32 = u32::MAX;

// The keys of the first n jobs, none of which is timed: by planned start, and then by number.
fn keys_of(plan: &[u32], n: usize) -> [u32; 128]
    requires { StartsSmall plan.now n }
    ensures { KeysTell no_marks plan.now n result }
{
    let mut keys = [TIMED; 128];
    for j in 0..n {
        keys[j] = 128 * plan[2 * j + 1] + (j as u32);
    }
    keys
}

// The job of least key: of those that are not timed that of least planned start, then of least number.
// Kept: one loop over words with one comparison. Tried: the planner's `least` over the marks of what is timed; the timed run takes twice as long.
fn choose(keys: &[u32; 128]) -> usize
    ensures { Chooses keys.now result }
{
    let mut least = keys[0];
    for key in keys {
        least = least.min(*key);
    }
    (least % 128) as usize
}

// Of the jobs that are not timed yet, the one that is planned first gets its start and its end.
fn time_next(
    framed: &Framed,
    plan: &[u32],
    durations: &[u32],
    timing: &mut Standing,
    keys: &mut [u32; 128],
)
    requires next { TimesNext (lent framed.now plan.now durations.now) timing.old }
    requires keys_tell { KeysTell timing.old.jobs plan.now framed.now.job_count keys.old }
    ensures stepped { Stepped (lent framed.now plan.now durations.now) timing.old timing.new }
    ensures keys_tell { KeysTell timing.new.jobs plan.now framed.now.job_count keys.new }
{
    let job = choose(keys);
    let row = framed.before[job];
    let release = framed.jobs[job].release;
    let ready = planning::ready_at(&timing.ends, row, job, release);
    let processor = plan[2 * job] as usize;
    let start = ready.max(timing.last[processor]);
    let end = start + durations[job];
    timing.stand(job, processor, [start, end], end);
    keys[job] = TIMED;
}

// The starts and ends of a frame's jobs, two words for each.
pub fn time_all(framed: &Framed, plan: &[u32], durations: &[u32]) -> [u32; 256]
    requires { TimesAll (lent framed.now plan.now durations.now) }
    ensures { AllTimed (lent framed.now plan.now durations.now) result }
{
    let mut timing = Standing::nothing();
    let mut keys = keys_of(plan, framed.job_count as usize);
    for _ in 0..framed.job_count {
        time_next(framed, plan, durations, &mut timing, &mut keys);
    }
    timing.words
}
