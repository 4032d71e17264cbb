//! The bytes of a session from the standard input.
ghost use Rattle.std.specs.Prelude.{◌≤◌, IfOk, vec_len};

use crate::run::MOST_BYTES;
use std::io;
use std::io::Read;

/// One byte more than a session reads: enough to know that the input is too long.
const MOST_KEPT: usize = MOST_BYTES + 1;

/// The input, as far as it is kept.
pub fn read_input(rt: &HostRuntime) -> io::Result<Vec<u8>>
    ensures bounded { IfOk result (λ input. vec_len input ≤ 65537) }
{
    let mut input = Vec::new(rt.alloc());
    rt.stdin().take(MOST_KEPT as u64).read_to_end(&mut input)?;
    input.truncate(MOST_KEPT);
    Ok(input)
}
