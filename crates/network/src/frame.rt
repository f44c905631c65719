// The frame: its length, the least common multiple of the periods, and whether it and its jobs are few enough.
ghost use Rattle.std.specs.Prelude.{◌≡◌, ◌*◌, ◌≤◌, length};
ghost use Rattle.reply.specs.Tools.{sum};
ghost use Rattle.network.specs.Frame.{process_at, frame_length, jobs_of, fits_frame};
ghost use Rattle.network.specs.FrameLaws.{common_multiple};

use crate::Process;

// The least number from 1 to 2000 that both divide, 2001 if there is none: the first multiple of the larger that the smaller divides. A 0 divides none.
// Kept: 2001 for none, since `frame_length` of specs/Frame.antt, which `frame_of` promises, has it; and a frame too long stays so with each further process.
fn first_multiple(large: u32, small: u32) -> u32
    requires { small ≤ large }
    ensures { result ≡ common_multiple large small }
{
    if small == 0 {
        return 2001;
    }
    let mut at = large;
    while at <= 2000 {
        if at % small == 0 {
            return at;
        }
        at += large;
    }
    2001
}

// The least number from 1 to 2000 that both divide, 2001 if there is none.
fn common_multiple(a: u32, b: u32) -> u32
    ensures { result ≡ common_multiple a b }
{
    first_multiple(a.max(b), a.min(b))
}

// The length of the frame of the processes, 2001 if it is above 2000: with each process, the least common multiple of the length so far and its period.
// A frame too long stays 2001, since no number up to 2000 is a multiple of that.
#[tactic(auto, using(crate::specs::FrameLaws::frame_none, crate::specs::FrameLaws::frame_next))]
pub fn frame_length(processes: &[Process]) -> u32
    ensures { result ≡ frame_length processes.now }
{
    let mut frame = 1;
    for process in processes {
        frame = common_multiple(frame, process.period);
    }
    frame
}

// How many jobs a process has in a frame; none if its period is 0. At most 2000 times 2^32, so that those of twelve processes do not wrap.
fn jobs_of(frame: u32, process: Process) -> u64
    requires { frame ≤ 2000 }
    ensures { (result ≡ jobs_of frame process) × (result ≤ 2000 * 4294967296) }
{
    if process.period == 0 {
        return 0;
    }
    u64::from(process.burst) * u64::from(frame / process.period)
}

// How many jobs the processes have in a frame.
#[tactic(auto, using(reply::specs::Counts::sum_zero))]
fn job_count(frame: u32, processes: &[Process]) -> u64
    requires { (frame ≤ 2000) × (length processes.now ≤ 12) }
    ensures { result ≡ sum (length processes.now) (λ k. jobs_of frame (process_at processes.now k)) }
{
    let mut jobs = 0;
    for process in processes {
        jobs += jobs_of(frame, *process);
    }
    jobs
}

// Whether the frame of the processes is at most 2000 long and has at most 128 jobs.
#[tactic(auto, unfolding(crate::specs::Frame::fits_frame, crate::specs::Frame::job_count))]
pub fn fits_frame(processes: &[Process]) -> bool
    requires { length processes.now ≤ 12 }
    ensures { result ≡ fits_frame processes.now }
{
    let frame = frame_length(processes);
    frame <= 2000 && job_count(frame, processes) <= 128
}
