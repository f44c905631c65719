// A network's numbers in the order of the file, each encoded, into a buffer that always has room: there are at most 1,412, of at most five bytes each.
// Each function but the last writes from a position on, and returns the position after what it wrote.
// Kept: buffer and position side by side. In plain Rust a struct of both took 1.07 of the time, since the position then stays in memory; one that holds the `&mut`
// needs a clause in each contract that it still holds the same reference, and says no more.
ghost use Rattle.std.specs.Prelude.{ℕ, ◌≡◌, List, [], ◌∷◌, ◌+◌, ◌*◌, ◌<◌, ◌≤◌, length, get_or};
ghost use Rattle.network.specs.Lists.{each_of, table};
ghost use Rattle.network.specs.Net.{process_fields, pair_fields, channel_fields, four_fields, four_at, program_at, within};
ghost use Rattle.network.specs.Write.{program_fields};
ghost use Rattle.writer.specs.Laid.{Laid, Encoded};

use network::{Channel, Four, Network, Pair, Process};

fn put_number(out: &mut [u8; 7060], at: usize, n: u32) -> usize
    requires { at + 5 ≤ 7060 }
    ensures { Laid out.old at (n ∷ []) 5 out.new result }
{
    number::put_groups(out, at, n)
}

fn put_numbers(out: &mut [u8; 7060], from: usize, numbers: &[u32]) -> usize
    requires { from + 5 * length numbers.now ≤ 7060 }
    ensures { Laid out.old from numbers.now (5 * length numbers.now) out.new result }
{
    let mut at = from;
    for n in numbers {
        at = put_number(out, at, *n);
    }
    at
}

// What stands in the file as a few numbers: which they are, and how many bytes they have at most.
trait Record: Copy {
    ghost fields: { Self → List ℕ };

    ghost most: { ℕ };

    fn put(self, out: &mut [u8; 7060], at: usize) -> usize
        requires { at + most ≤ 7060 }
        ensures { Laid out.old at (fields self) most out.new result };
}

impl Record for Process {
    ghost fields = { process_fields };

    ghost most = { 20 };

    fn put(self, out: &mut [u8; 7060], at: usize) -> usize {
        put_numbers(
            out,
            at,
            &[self.period, self.burst, self.deadline, self.budget],
        )
    }
}

impl Record for Pair {
    ghost fields = { pair_fields };

    ghost most = { 10 };

    fn put(self, out: &mut [u8; 7060], at: usize) -> usize {
        put_numbers(out, at, &[self.higher, self.lower])
    }
}

impl Record for Channel {
    ghost fields = { channel_fields };

    ghost most = { 20 };

    fn put(self, out: &mut [u8; 7060], at: usize) -> usize {
        put_numbers(
            out,
            at,
            &[self.kind, self.writer, self.reader, self.capacity],
        )
    }
}

impl Record for Four {
    ghost fields = { four_fields };

    ghost most = { 20 };

    fn put(self, out: &mut [u8; 7060], at: usize) -> usize {
        put_numbers(out, at, &[self.head, self.a, self.b, self.c])
    }
}

// One record after another.
fn put_records<R: Record>(out: &mut [u8; 7060], from: usize, records: &[R]) -> usize
    requires { from + R.most * length records.now ≤ 7060 }
    ensures { Laid out.old from (each_of R.fields records.now) (R.most * length records.now) out.new result }
{
    let mut at = from;
    for record in records {
        at = record.put(out, at);
    }
    at
}

// The four numbers of action k of process p.
pub fn four_at(actions: &[u32; 1152], p: usize, k: usize) -> Four
    requires { (p < 12) × (k < 24) }
    ensures { result ≡ four_at actions.now p k }
{
    let here = 96 * p + 4 * k;
    Four {
        head: actions[here],
        a: actions[here + 1],
        b: actions[here + 2],
        c: actions[here + 3],
    }
}

// The program of process p: its count, whatever it is, and its first actions.
fn put_program(
    out: &mut [u8; 7060],
    from: usize,
    count: u32,
    actions: &[u32; 1152],
    p: usize,
) -> usize
    requires { (from + 485 ≤ 7060) × (p < 12) }
    ensures { Laid out.old from (count ∷ each_of four_fields (program_at actions.now count p)) 485 out.new result }
{
    let mut at = put_number(out, from, count);
    for k in 0..(count as usize).min(24) {
        at = four_at(actions, p, k).put(out, at);
    }
    at
}

// The programs of its processes.
fn put_programs(out: &mut [u8; 7060], from: usize, network: &Network) -> usize
    requires { from + 5820 ≤ 7060 }
    ensures { Laid out.old from (program_fields network.now.action_counts (within network.now).programs) 5820 out.new result }
{
    let mut at = from;
    for p in 0..network.processes().len() {
        at = put_program(out, at, network.action_counts[p], &network.actions, p);
    }
    at
}

// The whole network. The counts are the struct's own, whatever they are; one that is too large counts all that there are.
pub fn encode_network(network: &Network, out: &mut [u8; 7060]) -> usize
    ensures { Encoded network.now result out.new }
{
    let at = put_numbers(out, 0, &[1, network.process_count]);
    let at = put_records(out, at, network.processes());
    let at = put_number(out, at, network.pair_count);
    let at = put_records(out, at, network.pairs());
    let at = put_number(out, at, network.channel_count);
    let at = put_records(out, at, network.channels());
    put_programs(out, at, network)
}
