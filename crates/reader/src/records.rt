// Records of one kind one after another.
ghost use Rattle.std.specs.Prelude.{◌≡◌, ℕ, ◌≤◌, List};
ghost use Rattle.reply.specs.Result.{Result};
ghost use Rattle.number.specs.Parts.{Part, many};
ghost use Rattle.reader.specs.Told.{list_told, Reads};

use reply::Refusal;

// So many records from `from` on, at the front of an array: each of them is what `read` reads at its position.
pub fn read_list<T: Copy, const N: usize, F: Fn(usize) -> Result<(T, usize), Refusal>>(
    none: T,
    count: usize,
    from: usize,
    read: F,
) -> Result<([T; N], usize), Refusal>
    requires room { count ≤ N }
    requires callable { F.IsAlwaysCallable read }
    ensures { (one : List T → ℕ → Result (Part T)) → Reads (F.post read) one → result ≡ list_told N none (many count one from) }
{
    let mut list = [none; N];
    let mut at = from;
    for i in 0..count {
        let (record, next) = read(at)?;
        list[i] = record;
        at = next;
    }
    Ok((list, at))
}
