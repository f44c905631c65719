// What stands so far, of the jobs that the planner places and of those that the timed run times.
ghost use Rattle.std.specs.Prelude.{◌≡◌, ◌<◌};
ghost use Rattle.plan.specs.Standing.{nothing_by, stand_by};

use marks::Row;

// Which jobs stand, the end of each, the last end on each processor, and two words for each job.
#[derive(Clone, Copy, Debug, PartialEq, Eq)]
pub struct Standing {
    pub jobs: Row,
    pub ends: [u32; 128],
    pub last: [u32; 4],
    pub words: [u32; 256],
}

impl Standing {
    pub fn nothing() -> Standing
        ensures { result ≡ nothing_by }
    {
        Standing {
            jobs: Row::empty(),
            ends: [0; 128],
            last: [0; 4],
            words: [0; 256],
        }
    }

    // One more job stands, with its words, on a processor until `end`.
    pub fn stand(&mut self, job: usize, processor: usize, words: [u32; 2], end: u32)
        requires { (job < 128) × (processor < 4) }
        ensures { self.new ≡ stand_by self.old job processor words end }
    {
        self.jobs = self.jobs.with(job);
        self.ends[job] = end;
        self.last[processor] = end;
        self.words[2 * job] = words[0];
        self.words[2 * job + 1] = words[1];
    }
}
