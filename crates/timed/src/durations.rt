// Durations, one word for each job.
ghost use Rattle.std.specs.Prelude.{◌≡◌, ◌≤◌, length};
ghost use Rattle.reply.specs.Told.{judged};
ghost use Rattle.timed.specs.TimedTold.{ok_within};

use graph::Job;
use reply::{Refusal, Reply};

// The first n durations, in order: reply 18 at the first job whose duration is above its budget.
pub fn judge(jobs: &[Job; 128], n: usize, durations: &[u32]) -> Result<(), Refusal>
    requires { (n ≤ 128) × (n ≤ length durations.now) }
    ensures { result ≡ judged (ok_within jobs.now n durations.now) }
{
    for j in 0..n {
        if jobs[j].budget < durations[j] {
            return Err(Refusal {
                reply: Reply::LongDuration,
                place: j,
            });
        }
    }
    Ok(())
}
