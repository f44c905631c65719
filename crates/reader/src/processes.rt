// The process records of the file.
ghost use Rattle.std.specs.Prelude.{◌≡◌, [], ◌≤◌};
ghost use Rattle.number.specs.Parts.{many};
ghost use Rattle.number.specs.Told.{part_told};
ghost use Rattle.network.specs.Frame.{no_process};
ghost use Rattle.network.specs.Read.{one_process};
ghost use Rattle.reader.specs.Told.{list_told, processes_at, processes_told};

use crate::{numbers, records};
use network::{Process, frame};
use reply::{Refusal, Reply};

#[tactic(auto, unfolding(network::specs::Read::one_process))]
fn read_process(file: &[u8], at: usize) -> Result<(Process, usize), Refusal>
    ensures { result ≡ part_told (one_process file.now [] at) }
{
    let (period, at) = numbers::in_range(file, 1, 1000, at)?;
    let (burst, at) = numbers::in_range(file, 1, 4, at)?;
    let (deadline, at) = numbers::in_range(file, 1, period, at)?;
    let (budget, at) = numbers::in_range(file, 1, deadline, at)?;
    let process = Process {
        period,
        burst,
        deadline,
        budget,
    };
    Ok((process, at))
}

// No process: what stands past the processes that there are.
pub const NO_PROCESS: Process = Process {
    period: 0,
    burst: 0,
    deadline: 0,
    budget: 0,
};

// So many process records from `from` on.
fn read_list(file: &[u8], count: usize, from: usize) -> Result<([Process; 12], usize), Refusal>
    requires { count ≤ 12 }
    ensures { result ≡ list_told 12 no_process (many count (one_process file.now) from) }
{
    records::read_list(NO_PROCESS, count, from, |at| read_process(file, at))
}

// How many processes there are, and each of them; their frame must fit.
#[tactic(auto, unfolding(crate::specs::Told::processes_at))]
pub fn read_processes(file: &[u8], at: usize) -> Result<(u32, [Process; 12], usize), Refusal>
    ensures { result ≡ processes_told (processes_at file.now at) }
{
    let (count, at) = numbers::in_range(file, 1, 12, at)?;
    let (processes, at) = read_list(file, count as usize, at)?;
    if frame::fits_frame(&processes[..count as usize]) {
        return Ok((count, processes, at));
    }
    Err(Refusal {
        reply: Reply::TooLarge,
        place: at,
    })
}
