// The lister: reads a network file on standard input, up to 4,096 bytes of it, and prints its listing for two processors, or why it is refused.
#![tactic(auto)]

ghost use Rattle.std.specs.Prelude.{◌≤◌, length, IfOk};

use std::io;
use std::io::Read;

// Reads until the buffer is full or the input ends, and gives how many bytes it put at the start of the buffer.
fn read_full<R: Read>(reader: &mut R, buffer: &mut [u8]) -> io::Result<usize>
    ensures { IfOk result (λ size. size ≤ length buffer.new) }
{
    let mut size = 0usize;
    while size < buffer.len() {
        let more = reader.read(&mut buffer[size..])?;
        if more == 0 {
            break;
        }
        size += more;
    }
    Ok(size)
}

fn main(rt: HostRuntime) -> io::Result<()> {
    let mut file = [0u8; 4096];
    let size = read_full(&mut rt.reader(), &mut file)?;
    let mut text = [0u8; 4096];
    let length = listing::page(&file[..size], &mut text);
    rt.write_all(&text[..length])
}
