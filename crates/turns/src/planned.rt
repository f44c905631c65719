// What the turns of a run go by.
ghost use Rattle.std.specs.Prelude.{◌*◌, ◌≤◌, length};
ghost use Rattle.turns.specs.Lent.{PlannedOf};

use crate::order;
use graph::{Framed, columns};
use machine::Tables;
use marks::Row;

// The tables of a network; of each of the frame's jobs its process, the jobs before it, and the next job on its processor; and the first job of each processor.
// Kept: arrays of 128 with `jobs` beside them, since memory is fixed.
#[derive(Clone, Copy)]
pub struct Planned {
    pub tables: Tables,
    pub jobs: usize,
    pub processes: [u32; 128],
    pub before: [Row; 128],
    pub first: [Option<usize>; 4],
    pub after: [Option<usize>; 128],
}

impl Planned {
    // Of a frame and a plan for its jobs.
    pub fn of(framed: &Framed, plan: &[u32]) -> Planned
        requires { (2 * framed.now.job_count ≤ length plan.now) × (framed.now.job_count ≤ 128) }
        ensures { PlannedOf framed.now plan.now result }
    {
        let jobs = framed.job_count as usize;
        Planned {
            tables: Tables::of(&framed.network),
            jobs,
            processes: columns::processes(framed.jobs),
            before: framed.before,
            first: order::first(plan, jobs),
            after: order::after(plan, jobs),
        }
    }
}
