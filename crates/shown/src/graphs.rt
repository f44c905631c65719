// The line of a graph, or of a job with those that precede it.
use crate::print;
use crate::print::Outcome;
use graph::{Job, PrecedenceGraph};
use marks::Row;
use std::convert::AsSlice;
use std::fmt::Display;
use std::{fmt, io};

pub fn show(rt: &impl Print, label: impl AsSlice<u8> + Drop, file: &[u8]) -> io::Result<()> {
    let graph = graph::graph(file);
    print::head(rt, label)?;
    println!(rt; "{}", Outcome(graph.answer, Shown(&graph)))
}

// Job j of a file's frame, and the jobs that precede it.
pub fn show_job(
    rt: &impl Print,
    label: impl AsSlice<u8> + Drop,
    file: &[u8],
    j: usize,
) -> io::Result<()> {
    let framed = graph::frame(file);
    let Job {
        process,
        release,
        deadline,
        budget,
    } = framed.jobs[j % 128];
    let job = format_args!(
        "process {process}, release {release}, deadline {deadline}, budget {budget}, predecessors{}",
        Marked(framed.before[j % 128])
    );
    print!(rt; "job {j} of ")?;
    print::head(rt, label)?;
    println!(rt; "{}", Outcome(framed.answer, job))
}

// The counts of a graph, and of a small one the jobs' processes and the edges too.
#[derive(Drop)]
struct Shown<'a>(&'a PrecedenceGraph);

impl Display for Shown<'_> {
    fn fmt<W: fmt::Write>(&self, f: &mut fmt::Formatter<W>) -> fmt::Result {
        let graph = self.0;
        write!(
            f,
            "jobs {}, frame {}, edges {}",
            graph.job_count, graph.frame, graph.edges
        )?;
        if graph.job_count <= 16 {
            processes(f, &graph.jobs[..graph.job_count as usize])?;
            edges(f, &graph.rows)?;
        }
        Ok(())
    }
}

// The process of each job.
fn processes<W: fmt::Write>(f: &mut fmt::Formatter<W>, jobs: &[Job]) -> fmt::Result {
    write!(f, ", processes")?;
    for job in jobs {
        write!(f, " {}", job.process)?;
    }
    Ok(())
}

// Each edge after a space: row i marks the jobs that an edge leads to from job i.
fn edges<W: fmt::Write>(f: &mut fmt::Formatter<W>, rows: &[Row]) -> fmt::Result {
    write!(f, ", edges")?;
    for (i, &row) in rows.iter().enumerate() {
        edges_from(f, i, row)?;
    }
    Ok(())
}

fn edges_from<W: fmt::Write>(f: &mut fmt::Formatter<W>, i: usize, row: Row) -> fmt::Result {
    for j in (0..128).filter(|&j| row.has(j)) {
        write!(f, " {i}-{j}")?;
    }
    Ok(())
}

// Each job that a row marks, after a space.
#[derive(Drop)]
struct Marked(Row);

impl Display for Marked {
    fn fmt<W: fmt::Write>(&self, f: &mut fmt::Formatter<W>) -> fmt::Result {
        for i in (0..128).filter(|&i| self.0.has(i)) {
            write!(f, " {i}")?;
        }
        Ok(())
    }
}
