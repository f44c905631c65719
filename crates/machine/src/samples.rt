// Samples in a lent table, two numbers for each: present (0 or 1) and value (0 where it is not present).
ghost use Rattle.std.specs.Prelude.{◌≡◌, ◌+◌, ◌*◌, ◌≤◌, length};
ghost use Rattle.std.proofs.lemmas.List.Edits.{sets};
ghost use Rattle.reply.specs.Told.{judged};
ghost use Rattle.machine.specs.Samples.{sample_at, sample_words, good_sample, ok_samples};

use crate::Sample;
use reply::{Refusal, Reply};

// Sample k.
pub fn get(table: &[u32], k: usize) -> Sample
    requires { 2 * k + 2 ≤ length table.now }
    ensures { result ≡ sample_at table.now k }
{
    Sample {
        present: table[2 * k],
        value: table[2 * k + 1],
    }
}

// Puts sample k.
pub fn put(table: &mut [u32], k: usize, sample: Sample)
    requires { 2 * k + 2 ≤ length table.old }
    ensures { table.new ≡ sets table.old (2 * k) (sample_words sample) }
{
    table[2 * k] = sample.present;
    table[2 * k + 1] = sample.value;
}

// Whether a run takes a sample.
#[tactic(auto, unfolding(crate::specs::Samples::good_sample))]
fn good(sample: Sample) -> bool
    ensures { result ≡ good_sample sample }
{
    sample.present == 1 || sample.present == 0 && sample.value == 0
}

// The first `count` samples, in order: reply 16 at the index of the first that is wrong.
pub fn judge(input: &[u32], count: usize) -> Result<(), Refusal>
    requires { (count ≤ 12800) × (2 * count ≤ length input.now) }
    ensures { result ≡ judged (ok_samples count input.now) }
{
    for k in 0..count {
        if !good(get(input, k)) {
            return Err(Refusal {
                reply: Reply::BadSample,
                place: k,
            });
        }
    }
    Ok(())
}
