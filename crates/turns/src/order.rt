// The planned order of each processor: its first job, and after each job the next one on its processor.
ghost use Rattle.std.specs.Prelude.{◌≡◌, ◌*◌, ◌≤◌, length};
ghost use Rattle.turns.specs.Order.{better_job, job_from, InPlan, firsts, AfterIs};

// Of the best job so far and job i: the one that starts first, of those on processor m that start at `from` or later.
fn better(plan: &[u32], m: u32, from: usize, i: usize, best: Option<usize>) -> Option<usize>
    requires { InPlan plan.now (Some i) × InPlan plan.now best }
    ensures { result ≡ better_job plan.now m from i best }
{
    let start = plan[2 * i + 1];
    if plan[2 * i] != m || (start as usize) < from {
        return best;
    }
    match best {
        Some(k) if plan[2 * k + 1] <= start => best,
        _ => Some(i),
    }
}

// The job that starts first on processor m, of those that start at `from` or later.
// Kept: a loop: tried `filter` and `min_by_key`, and the proof that of two jobs that tie it gives the lower did not close.
fn next_from(plan: &[u32], jobs: usize, m: u32, from: usize) -> Option<usize>
    requires { 2 * jobs ≤ length plan.now }
    ensures { result ≡ job_from plan.now jobs m from }
{
    let mut best = None;
    for i in 0..jobs {
        best = better(plan, m, from, i, best);
    }
    best
}

// The first job of each processor.
pub fn first(plan: &[u32], jobs: usize) -> [Option<usize>; 4]
    requires { 2 * jobs ≤ length plan.now }
    ensures { result ≡ firsts plan.now jobs }
{
    [0, 1, 2, 3].map(|m| next_from(plan, jobs, m, 0))
}

// After each job the next one on its processor.
pub fn after(plan: &[u32], jobs: usize) -> [Option<usize>; 128]
    requires { (2 * jobs ≤ length plan.now) × (jobs ≤ 128) }
    ensures { AfterIs plan.now jobs result }
{
    let mut next = [None; 128];
    for j in 0..jobs {
        let start = plan[2 * j + 1] as usize;
        next[j] = next_from(plan, jobs, plan[2 * j], start + 1);
    }
    next
}
