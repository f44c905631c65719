// The lister's text: the jobs of a file's network and their plan for two processors.
#![tactic(auto)]

mod lines;
mod text;

ghost use Rattle.std.specs.Prelude.{◌≡◌, ◌+◌, ◌≤◌, length, OnErr};
ghost use Rattle.reply.specs.Told.{told};
ghost use Rattle.listing.specs.Listing.{listed, list_call, listed_of, list_filled, page_of};
ghost use Rattle.listing.specs.Printed.{Printed, Put, no_text, text_by, text_or_refusal, text_with};

use crate::text::Text;
use graph::PrecedenceGraph;
use network::Written;
use reply::{Answer, Refusal};

// What a call answers, and how many bytes of text it filled.
#[derive(Clone, Copy)]
pub struct Listed {
    pub answer: Answer,
    pub length: usize,
}

// The text of a graph and a plan, after what is there.
fn put_listing(text: &mut Text, graph: &PrecedenceGraph, plan: &[u32; 256])
    requires { (graph.now.job_count ≤ 128) × (text.old.length + length (text_by graph.now plan.now) ≤ 4096) }
    ensures { Put text.old (text_by graph.now plan.now) text.new }
{
    lines::put_head(text, graph.job_count, graph.frame, graph.edges);
    lines::put_lines(text, graph.job_count as usize, &graph.jobs, plan);
}

// Puts the text of a file's network and its plan into an empty text, or leaves that as it is.
// Kept: the text is lent, since given back in a result it is copied, and the lister then takes 16 KiB more of the stack.
fn put_text(file: &[u8], text: &mut Text) -> Result<(), Refusal>
    requires { text.old ≡ no_text }
    ensures value { text_or_refusal result text.new ≡ told text_with (listed file.now) }
    ensures kept { OnErr result (text.new ≡ text.old) }
{
    let mut words = [0; 256];
    let planned = plan::plan(file, 2, &mut words);
    planned.ok()?;
    let graph = graph::graph(file);
    put_listing(text, &graph, &words);
    Ok(())
}

// Lists a file's network: the text from the front of `out`.
pub fn list(file: &[u8], out: &mut [u8]) -> Listed
    ensures result { result ≡ listed_of (list_call file.now out.old) }
    ensures filled { out.new ≡ list_filled (list_call file.now out.old) out.old }
{
    let mut text = Text::empty();
    match put_text(file, &mut text) {
        Ok(()) => {
            let Written { answer, length } = writer::give(text.as_bytes(), out);
            Listed { answer, length }
        }
        Err(refusal) => Listed {
            answer: Answer::from(refusal),
            length: 0,
        },
    }
}

// Puts the listing of a file, or the line of its refusal, into an empty text.
fn put_page(file: &[u8], text: &mut Text)
    requires { text.old ≡ no_text }
    ensures { text.new ≡ text_with (page_of file.now) }
{
    match put_text(file, text) {
        Ok(()) => {}
        Err(refusal) => lines::put_refusal(text, refusal),
    }
}

// What the lister prints of a file: its listing, or `refused N at P`.
pub fn page(file: &[u8], out: &mut [u8; 4096]) -> usize
    ensures { Printed out.old 0 (page_of file.now) out.new result }
{
    let mut text = Text::empty();
    put_page(file, &mut text);
    let bytes = text.as_bytes();
    out[..bytes.len()].copy_from_slice(bytes);
    bytes.len()
}
