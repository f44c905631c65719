// The face to C and Rust: each entry point under a plain name. Every answer begins with the number of the reply, and its place.
#![tactic(auto)]

ghost use Rattle.std.specs.Prelude.{◌≡◌};
ghost use Rattle.network.specs.Read.{read_file};
ghost use Rattle.network.specs.Write.{wrote, wrote_to};
ghost use Rattle.graph.specs.Graph.{graph_file};
ghost use Rattle.reply.specs.Result.{answer_of};
ghost use Rattle.plan.specs.Plan.{plan_call, plan_filled, check_call};
ghost use Rattle.timed.specs.Timed.{timed_call, timed_filled};
ghost use Rattle.listing.specs.Listing.{list_call, listed_of, list_filled};
ghost use Rattle.zero_delay.specs.ZeroDelay.{zero_delay, ran_of, filled_by};
ghost use Rattle.promises.specs.Turns.{turn_call};
ghost use Rattle.turns.specs.Turned.{turned_of, turn_filled};
ghost use Rattle.fppn.specs.Answers.{loaded_from, written_from, graph_from, ran_from, turned_from, answer_from, listed_from};

use graph::{PrecedenceGraph, columns};
use listing::Listed;
use machine::Held;
use marks::Row;
use network::{Loaded, Network, Written};
use reply::Answer;
use turns::TurnRan;
use zero_delay::Ran;

// Kept: the structs are flat, and a reply is its number, for C and Rust read them so.

// The network of a file, all zero when it is refused.
#[repr(C)]
#[derive(Clone, Copy)]
pub struct FppnLoaded {
    pub reply: u32,
    pub place: usize,
    pub network: Network,
}

impl From<Loaded> for FppnLoaded {
    ghost from_gives = { λ loaded given. given ≡ loaded_from loaded };

    #[tactic(auto, unfolding(crate::specs::Answers::loaded_from))]
    fn from(loaded: Loaded) -> FppnLoaded {
        FppnLoaded {
            reply: u32::from(loaded.answer.reply),
            place: loaded.answer.place,
            network: loaded.network,
        }
    }
}

// How many bytes were written.
#[repr(C)]
#[derive(Clone, Copy)]
pub struct FppnWritten {
    pub reply: u32,
    pub place: usize,
    pub length: usize,
}

impl From<Written> for FppnWritten {
    ghost from_gives = { λ written given. given ≡ written_from written };

    #[tactic(auto, unfolding(crate::specs::Answers::written_from))]
    fn from(written: Written) -> FppnWritten {
        FppnWritten {
            reply: u32::from(written.answer.reply),
            place: written.answer.place,
            length: written.length,
        }
    }
}

// The precedence graph: how many jobs there are, the frame's length, how many edges stay; of each job its process, release, deadline and budget;
// and row i of `rows` marks each job that an edge leads to from job i.
#[repr(C)]
#[derive(Clone, Copy)]
pub struct FppnGraphResult {
    pub reply: u32,
    pub place: usize,
    pub jobs: u32,
    pub frame: u32,
    pub edges: u32,
    pub process: [u32; 128],
    pub release: [u32; 128],
    pub deadline: [u32; 128],
    pub budget: [u32; 128],
    pub rows: [Row; 128],
}

impl From<PrecedenceGraph> for FppnGraphResult {
    ghost from_gives = { λ graph given. given ≡ graph_from graph };

    fn from(graph: PrecedenceGraph) -> FppnGraphResult {
        let process = columns::processes(graph.jobs);
        let release = columns::releases(graph.jobs);
        let deadline = columns::deadlines(graph.jobs);
        let budget = columns::budgets(graph.jobs);
        let rows = graph.rows;
        FppnGraphResult {
            reply: u32::from(graph.answer.reply),
            place: graph.answer.place,
            jobs: graph.job_count,
            frame: graph.frame,
            edges: graph.edges,
            process,
            release,
            deadline,
            budget,
            rows,
        }
    }
}

// The variables after a run, and what the channels hold.
#[repr(C)]
#[derive(Clone, Copy)]
pub struct FppnRan {
    pub reply: u32,
    pub place: usize,
    pub variables: [u32; 96],
    pub channels: [Held; 16],
}

impl From<Ran> for FppnRan {
    ghost from_gives = { λ ran given. given ≡ ran_from ran };

    #[tactic(auto, unfolding(crate::specs::Answers::ran_from))]
    fn from(ran: Ran) -> FppnRan {
        let variables = ran.variables;
        let channels = ran.channels;
        FppnRan {
            reply: u32::from(ran.answer.reply),
            place: ran.answer.place,
            variables,
            channels,
        }
    }
}

// A turn run: the frames finished, the jobs finished in the present frame, the turns that worked and that waited; the variables, and what the channels hold.
#[repr(C)]
#[derive(Clone, Copy)]
pub struct FppnTurned {
    pub reply: u32,
    pub place: usize,
    pub frames: usize,
    pub jobs: usize,
    pub working: usize,
    pub waiting: usize,
    pub variables: [u32; 96],
    pub channels: [Held; 16],
}

impl From<TurnRan> for FppnTurned {
    ghost from_gives = { λ turned given. given ≡ turned_from turned };

    #[tactic(auto, unfolding(crate::specs::Answers::turned_from))]
    fn from(turned: TurnRan) -> FppnTurned {
        let variables = turned.variables;
        let channels = turned.channels;
        FppnTurned {
            reply: u32::from(turned.answer.reply),
            place: turned.answer.place,
            frames: turned.frames,
            jobs: turned.jobs,
            working: turned.working,
            waiting: turned.waiting,
            variables,
            channels,
        }
    }
}

// How many bytes of text were filled.
#[repr(C)]
#[derive(Clone, Copy)]
pub struct FppnListed {
    pub reply: u32,
    pub place: usize,
    pub length: usize,
}

impl From<Listed> for FppnListed {
    ghost from_gives = { λ listed given. given ≡ listed_from listed };

    #[tactic(auto, unfolding(crate::specs::Answers::listed_from))]
    fn from(listed: Listed) -> FppnListed {
        FppnListed {
            reply: u32::from(listed.answer.reply),
            place: listed.answer.place,
            length: listed.length,
        }
    }
}

// An answer that has no more to tell.
#[repr(C)]
#[derive(Clone, Copy)]
pub struct FppnAnswer {
    pub reply: u32,
    pub place: usize,
}

impl From<Answer> for FppnAnswer {
    ghost from_gives = { λ answer given. given ≡ answer_from answer };

    #[tactic(auto, unfolding(crate::specs::Answers::answer_from))]
    fn from(answer: Answer) -> FppnAnswer {
        FppnAnswer {
            reply: u32::from(answer.reply),
            place: answer.place,
        }
    }
}

// Reads a network file.
#[unsafe(no_mangle)]
pub extern "C" fn fppn_read(file: &[u8]) -> FppnLoaded
    ensures { result ≡ loaded_from (read_file file.now) }
{
    FppnLoaded::from(reader::read(file))
}

// Writes a network's file to the front of the lent bytes.
#[unsafe(no_mangle)]
pub extern "C" fn fppn_write(network: Network, out: &mut [u8]) -> FppnWritten
    ensures value { result ≡ written_from (wrote network out.old) }
    ensures out_after { out.new ≡ wrote_to network out.old }
{
    FppnWritten::from(writer::write(network, out))
}

// The precedence graph of a file.
#[unsafe(no_mangle)]
pub extern "C" fn fppn_graph(file: &[u8]) -> FppnGraphResult
    ensures { result ≡ graph_from (graph_file file.now) }
{
    FppnGraphResult::from(graph::graph(file))
}

// The zero-delay run of a file's network for so many frames.
#[unsafe(no_mangle)]
pub extern "C" fn fppn_zero_delay(
    file: &[u8],
    frames: u32,
    input: &[u32],
    output: &mut [u32],
) -> FppnRan
    ensures value { result ≡ ran_from (ran_of (zero_delay file.now frames input.now output.old)) }
    ensures output_after { output.new ≡ filled_by (zero_delay file.now frames input.now output.old) output.old }
{
    FppnRan::from(zero_delay::run(file, frames, input, output))
}

// Plans a file's network: processor and start of each job, from the front of the lent words.
#[unsafe(no_mangle)]
pub extern "C" fn fppn_plan(file: &[u8], processors: u32, out: &mut [u32]) -> FppnAnswer
    ensures value { result ≡ answer_from (answer_of (plan_call file.now processors out.old)) }
    ensures out_after { out.new ≡ plan_filled (plan_call file.now processors out.old) out.old }
{
    FppnAnswer::from(plan::plan(file, processors, out))
}

// Checks a plan of a file's network.
#[unsafe(no_mangle)]
pub extern "C" fn fppn_check(file: &[u8], processors: u32, plan: &[u32]) -> FppnAnswer
    ensures { result ≡ answer_from (answer_of (check_call file.now processors plan.now)) }
{
    FppnAnswer::from(plan::check(file, processors, plan))
}

// The turn run of a file's network for so many frames, by a plan and a list of turns.
#[unsafe(no_mangle)]
pub extern "C" fn fppn_turns(
    file: &[u8],
    processors: u32,
    frames: u32,
    plan: &[u32],
    input: &[u32],
    turns: &[u32],
    output: &mut [u32],
) -> FppnTurned
    ensures value { result ≡ turned_from (turned_of (turn_call file.now processors frames plan.now input.now turns.now output.old)) }
    ensures output_after { output.new ≡ turn_filled (turn_call file.now processors frames plan.now input.now turns.now output.old) output.old }
{
    FppnTurned::from(turns::run(file, processors, frames, plan, input, turns, output))
}

// The timed run of a file's network on a plan, with a duration for each job: start and end of each job, from the front of the lent words.
#[unsafe(no_mangle)]
pub extern "C" fn fppn_timed(
    file: &[u8],
    processors: u32,
    plan: &[u32],
    durations: &[u32],
    out: &mut [u32],
) -> FppnAnswer
    ensures value { result ≡ answer_from (answer_of (timed_call file.now processors plan.now durations.now out.old)) }
    ensures out_after { out.new ≡ timed_filled (timed_call file.now processors plan.now durations.now out.old) out.old }
{
    FppnAnswer::from(timed::run(file, processors, plan, durations, out))
}

// The lister's text of a file, planned for two processors, to the front of the lent bytes.
#[unsafe(no_mangle)]
pub extern "C" fn fppn_list(file: &[u8], out: &mut [u8]) -> FppnListed
    ensures value { result ≡ listed_from (listed_of (list_call file.now out.old)) }
    ensures out_after { out.new ≡ list_filled (list_call file.now out.old) out.old }
{
    FppnListed::from(listing::list(file, out))
}
