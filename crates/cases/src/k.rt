// What the calls on network K are given: samples and plans; and a file that it is the front of.
ghost use Rattle.std.specs.Prelude.{◌<◌};

use shown::K;

// One frame's samples, and two frames'.
pub const INPUT: [u32; 8] = [1, 42, 0, 0, 0, 0, 0, 0];

pub const INPUTS: [u32; 16] = [1, 42, 0, 0, 0, 0, 0, 0, 0, 0, 0, 0, 0, 0, 0, 0];

// A plan for one processor, and one with a processor for each job.
pub const PLAN: [u32; 8] = [0, 0, 0, 3, 0, 7, 0, 13];

pub const EACH: [u32; 8] = [0, 0, 1, 3, 2, 7, 3, 13];

// K with another byte at a place, and K with a byte after it.
pub fn with(at: usize, byte: u8) -> [u8; 67]
    requires { at < 67 }
{
    let mut file = K;
    file[at] = byte;
    file
}

pub fn and_a_byte() -> [u8; 68] {
    let mut file = [0u8; 68];
    file[..67].copy_from_slice(&K);
    file
}
