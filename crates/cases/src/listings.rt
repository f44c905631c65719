// Listings of network files. Bytes that are not filled stay dots.
ghost use Rattle.std.specs.Prelude.{◌≤◌};

use crate::k;
use shown::{K, listings};
use std::io;

pub fn run(rt: &impl Print) -> io::Result<()> {
    into::<86>(rt, "K listed into 86 bytes", &K)?;
    into::<90>(rt, "K listed into 90 bytes", &K)?;
    into::<85>(rt, "K listed into 85 bytes", &K)?;
    into::<85>(rt, "K and one byte listed", &k::and_a_byte())?;
    // 19 whatever is lent, for then there is no text.
    into::<0>(
        rt,
        "three unrelated processes of budget 6 listed",
        b"\x01\x03\x0A\x01\x0A\x06\x0A\x01\x0A\x06\x0A\x01\x0A\x06\x00\x00\x00\x00\x00",
    )
}

// A listing into N lent bytes.
fn into<const N: usize>(rt: &impl Print, label: &str, file: &[u8]) -> io::Result<()>
    requires { N ≤ 4096 }
{
    listings::show(rt, label, file, &mut [b'.'; N])
}
