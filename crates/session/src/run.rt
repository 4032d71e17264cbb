//! A whole session.
ghost use Rattle.std.specs.Prelude.{◌≡◌, List, ◌++◌, IfOk, OnOk};
ghost use Rattle.session.specs.Held.{empty};
ghost use Rattle.session.specs.Lines.{Line, texts};
ghost use Rattle.session.specs.Session.{Session, Answered};

use crate::command::Command;
use crate::lines::{write_fault, write_refused};
use crate::refusal::Refusal;
use crate::reply::write_answer;
use crate::state::State;
use std::alloc::{AllocError, Global};

/// The longest input that is read.
pub const MOST_BYTES: usize = 65536;

/// Reads the commands of the input in turn, and answers the lines of the session. The letters of calls are those of commands only where `CALLS`
/// is true.
pub fn run<const CALLS: bool>(heap: Global, input: &[u8]) -> Result<Vec<u8>, AllocError>
    ensures answered { IfOk result (λ out. (ls : List Line) × Answered CALLS input.now ls × (out.items ≡ texts ls)) }
{
    let mut out = Vec::new(heap);
    if input.len() > MOST_BYTES {
        write_refused(&mut out, Refusal::TooLong, 0)?;
        return Ok(out);
    }
    answer::<CALLS>(input, &mut out)?;
    Ok(out)
}

// Answers each command, until the session stops or the input is over.
fn answer<const CALLS: bool>(input: &[u8], out: &mut Vec<u8>) -> Result<(), AllocError>
    ensures answered { OnOk result ((ls : List Line) × Session CALLS 0 input.now empty ls × (out.new.items ≡ out.old.items ++ texts ls)) }
{
    let heap = *out.allocator();
    let mut state = State::new(heap)?;
    let mut rest = input;
    loop {
        let at = input.len() - rest.len();
        let (command, after) = match Command::read::<CALLS>(rest) {
            Ok(read) => read,
            Err(fault) => return write_fault(out, fault, at),
        };
        let answer = match command {
            Command::Open(number) => {
                let (next, answer) = state.open::<CALLS>(heap, number)?;
                state = next;
                answer
            }
            _ => state.obey::<CALLS>(command),
        };
        write_answer(out, answer, &state, at)?;
        if command.stops() {
            return Ok(());
        }
        rest = after;
    }
}
