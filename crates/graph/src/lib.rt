// The frame of a network: its jobs in sequence, which job precedes which, and the precedence graph.
#![tactic(auto)]

pub mod columns;
mod precedence;
mod reduction;
mod sequence;

ghost use Rattle.std.specs.Prelude.{◌≡◌};
ghost use Rattle.reply.specs.Result.{done};
ghost use Rattle.network.specs.Net.{within};
ghost use Rattle.graph.specs.Work.{work_of};
ghost use Rattle.graph.specs.Graph.{framed_of, frame_file, graph_of, graph_file};
ghost use Rattle.graph.specs.FrameTold.{Accepted, IsSequenced};

use marks::Row;
use network::{Loaded, Network};
use reduction::Reduced;
use reply::Answer;
use sequence::Jobs;

// One job: its process, release, absolute deadline and budget, in ticks from the frame's start.
#[derive(Clone, Copy)]
pub struct Job {
    pub process: u32,
    pub release: u32,
    pub deadline: u32,
    pub budget: u32,
}

// What stands in a table of jobs past its count.
const NO_JOB: Job = Job {
    process: 0,
    release: 0,
    deadline: 0,
    budget: 0,
};

// What planner, checker and runs use. Row j of `before` marks every job that precedes job j. All zero when the file is refused.
// Kept: counts stand beside fixed tables, and the answer beside what it answers of, as `frame_file` and `graph_file` say (no heap, fixed memory; P10 of refusals).
#[derive(Clone, Copy)]
pub struct Framed {
    pub answer: Answer,
    pub network: Network,
    pub frame: u32,
    pub job_count: u32,
    pub jobs: [Job; 128],
    pub before: [Row; 128],
}

// The published graph. Row i of `rows` marks each job that an edge leads to from job i. All zero when the file is refused.
#[derive(Clone, Copy)]
pub struct PrecedenceGraph {
    pub answer: Answer,
    pub job_count: u32,
    pub frame: u32,
    pub edges: u32,
    pub jobs: [Job; 128],
    pub rows: [Row; 128],
}

// The jobs of a frame in sequence, and what orders them: row a of `ahead` marks each process that a comes before.
#[derive(Clone, Copy)]
struct Sequenced {
    frame: u32,
    ahead: [Row; 12],
    table: Jobs,
}

// The length of the frame of a network that was read, and its jobs.
fn in_sequence(network: &Network) -> Sequenced
    requires { Accepted network.now }
    ensures { IsSequenced network.now result }
{
    let ahead = network::ahead_of(network);
    let frame = network::frame_of(network);
    let processes = network.processes();
    let table = sequence::sequence(processes, &ahead[..processes.len()], frame);
    Sequenced {
        frame,
        ahead,
        table,
    }
}

// The frame of a network that was read.
fn frame_work(network: Network) -> Framed
    requires { Accepted network }
    ensures { result ≡ framed_of (done (work_of (within network))) }
{
    let Sequenced {
        frame,
        ahead,
        table,
    } = in_sequence(&network);
    let Jobs { count, jobs } = table;
    let n = network.processes().len();
    let before = precedence::before_rows(&jobs[..count], &ahead[..n]);
    Framed {
        answer: Answer::done(),
        network,
        frame,
        job_count: count as u32,
        jobs,
        before,
    }
}

// The frame of a file: its network, its jobs in sequence, and which precede each.
pub fn frame(file: &[u8]) -> Framed
    ensures { result ≡ frame_file file.now }
{
    let Loaded { answer, network } = reader::read(file);
    match answer.ok() {
        Ok(()) => frame_work(network),
        Err(refusal) => {
            let jobs = [NO_JOB; 128];
            let before = [Row::empty(); 128];
            Framed {
                answer: Answer::from(refusal),
                network,
                frame: 0,
                job_count: 0,
                jobs,
                before,
            }
        }
    }
}

// The graph of a network that was read.
fn graph_work(network: &Network) -> PrecedenceGraph
    requires { Accepted network.now }
    ensures { result ≡ graph_of (done (work_of (within network.now))) }
{
    let Sequenced {
        frame,
        ahead,
        table,
    } = in_sequence(network);
    let Jobs { count, jobs } = table;
    let n = network.processes().len();
    let after = precedence::after_rows(&jobs[..count], &ahead[..n]);
    let Reduced { rows, edges } = reduction::reduce(&after[..count]);
    PrecedenceGraph {
        answer: Answer::done(),
        job_count: count as u32,
        frame,
        edges,
        jobs,
        rows,
    }
}

// The precedence graph of a file: its jobs, and the edges that stay.
pub fn graph(file: &[u8]) -> PrecedenceGraph
    ensures { result ≡ graph_file file.now }
{
    let loaded = reader::read(file);
    match loaded.answer.ok() {
        Ok(()) => graph_work(&loaded.network),
        Err(refusal) => {
            let jobs = [NO_JOB; 128];
            let rows = [Row::empty(); 128];
            PrecedenceGraph {
                answer: Answer::from(refusal),
                job_count: 0,
                frame: 0,
                edges: 0,
                jobs,
                rows,
            }
        }
    }
}
