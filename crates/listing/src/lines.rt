// The lines of a listing: its head, and one for each job; and the line of a refusal.
ghost use Rattle.std.specs.Prelude.{◌≡◌, ◌+◌, ◌≤◌, length};
ghost use Rattle.reply.specs.Reply.{reply_number};
ghost use Rattle.listing.specs.Listing.{line, numbers_of, head_line, job_lines, refusal_line};
ghost use Rattle.listing.specs.Printed.{Put, no_text, text_with};

use crate::text::Text;
use graph::Job;
use reply::Refusal;

pub fn put_head(text: &mut Text, jobs: u32, frame: u32, edges: u32)
    requires { text.old.length + length (head_line jobs frame edges) ≤ 4096 }
    ensures { Put text.old (head_line jobs frame edges) text.new }
{
    text.words(b"jobs ");
    text.number(jobs as u64);
    text.words(b" frame ");
    text.number(frame as u64);
    text.words(b" edges ");
    text.field(edges, b'\n');
}

fn put_line(text: &mut Text, number: u32, job: Job, processor: u32, start: u32)
    requires { text.old.length + length (line (numbers_of number job processor start)) ≤ 4096 }
    ensures { Put text.old (line (numbers_of number job processor start)) text.new }
{
    text.field(number, b' ');
    text.field(job.process, b' ');
    text.field(job.release, b' ');
    text.field(job.deadline, b' ');
    text.field(job.budget, b' ');
    text.field(processor, b' ');
    text.field(start, b'\n');
}

// The lines of the first n jobs.
pub fn put_lines(text: &mut Text, n: usize, jobs: &[Job; 128], plan: &[u32; 256])
    requires { (n ≤ 128) × (text.old.length + length (job_lines jobs.now plan.now n) ≤ 4096) }
    ensures { Put text.old (job_lines jobs.now plan.now n) text.new }
{
    for j in 0..n {
        put_line(text, j as u32, jobs[j], plan[2 * j], plan[2 * j + 1]);
    }
}

// The line of a refusal, into an empty text.
pub fn put_refusal(text: &mut Text, refusal: Refusal)
    requires { text.old ≡ no_text }
    ensures { text.new ≡ text_with (refusal_line (reply_number refusal.reply) refusal.place) }
{
    let number = u32::from(refusal.reply);
    text.words(b"refused ");
    text.number(number as u64);
    text.words(b" at ");
    text.number(refusal.place as u64);
    text.words(b"\n");
}
