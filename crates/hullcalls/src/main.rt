//! Reads commands from the standard input, calls among them, and writes the lines of the session to the standard output.
#![tactic(auto)]

mod answer;

use answer::answer;
use session::input::read_input;
use std::io;
use std::io::Write;

// Kept: one function for both programs would be public and promise nothing, since no clause says which bytes are read or written.
fn main(rt: HostRuntime) -> io::Result<()> {
    let input = read_input(&rt)?;
    let lines = answer(rt.alloc(), input.as_slice())?;
    rt.stdout().write_all(lines.as_slice())
}
