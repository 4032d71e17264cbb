//! What a command is answered.
ghost use Rattle.std.specs.Prelude.{◌≡◌, ◌++◌, OnOk};
ghost use Rattle.session.specs.Held.{held};
ghost use Rattle.session.specs.Lines.{texts};
ghost use Rattle.session.specs.Session.{lines as lines_of, reply_lines};

use crate::lines;
use crate::refusal::Refusal;
use crate::state::State;
use judging::verdict::Counts;
use std::alloc::AllocError;

/// A collapse of `u` to `w`, and the figures of what it cost.
#[derive(Clone, Copy)]
pub struct Priced {
    pub u: u16,
    pub w: u16,
    pub amount: u64,
    pub divisor: u64,
}

/// What an obeyed command is answered.
#[derive(Clone, Copy)]
pub enum Reply<'a> {
    /// The command is obeyed, and nothing is said.
    Nothing,
    Named(&'a [u8]),
    Opened(Counts),
    /// The collapse that the command said.
    Collapsed(Priced),
    /// The collapse that a step made.
    Stepped(Priced),
    /// The new position.
    Split(usize),
    /// The new position.
    Redone(usize),
    /// The new position.
    Went(usize),
    /// The live triangles of the opened surface.
    Triangles,
    Ended(Counts),
}

impl Reply<'_> {
    /// Writes the lines of the reply, after which the session is in this state.
    fn write(self, state: &State, out: &mut Vec<u8>) -> Result<(), AllocError>
        ensures written { OnOk result (out.new.items ≡ out.old.items ++ texts (reply_lines (held state.now) self.entry)) }
    {
        match self {
            Reply::Nothing => Ok(()),
            Reply::Named(name) => lines::write_name(out, name),
            Reply::Opened(counts) => lines::write_counts(out, "open", counts),
            Reply::Collapsed(priced) => lines::write_priced(out, "collapse", priced),
            Reply::Stepped(priced) => lines::write_priced(out, "step", priced),
            Reply::Split(position) => lines::write_position(out, "split", position),
            Reply::Redone(position) => lines::write_position(out, "redo", position),
            Reply::Went(position) => lines::write_position(out, "go", position),
            Reply::Triangles => state.write_triangles(out),
            Reply::Ended(counts) => lines::write_counts(out, "end", counts),
        }
    }
}

/// Writes the lines of the answer to the command at `at`, after which the session is in this state.
pub fn write_answer(
    out: &mut Vec<u8>,
    answer: Result<Reply<'_>, Refusal>,
    state: &State,
    at: usize,
) -> Result<(), AllocError>
    ensures written { OnOk result (out.new.items ≡ out.old.items ++ texts (lines_of at (held state.now) answer.entry)) }
{
    match answer {
        Ok(reply) => reply.write(state, out),
        Err(refusal) => lines::write_refused(out, refusal, at),
    }
}
