//! What a session holds, and what each command does to it.
ghost use Rattle.std.specs.Prelude.{◌≡◌, ◌≢◌, ℕ, ◌++◌, Bool, IfOk, OnOk};
ghost use Rattle.session.specs.Held.{held, empty as nothing_held};
ghost use Rattle.session.specs.Fits.{Fits};
ghost use Rattle.session.specs.Lines.{texts};
ghost use Rattle.session.specs.Replies.{Replied};
ghost use Rattle.session.specs.Session.{held_lines};
ghost use Rattle.session.specs.Spelled.{Known};
ghost use Rattle.session.specs.declared.command.Command.TheVariants.{Open};

use crate::command::Command;
use crate::draft::Draft;
use crate::hull::Hull;
use crate::lines;
use crate::refusal::Refusal;
use crate::reply::Reply;
use crate::still::Still;
use gathering::gathering::Gathering;
use judging::verdict::Counts;
use std::alloc::{AllocError, Global};

/// A surface that is being gathered, or one that was opened: for calls, or to stay as it is.
#[derive(Drop)]
pub enum State {
    Gathering(Draft),
    Still(Still),
    Opened(Hull),
}

impl State {
    /// A gathering with no name and nothing in it.
    pub fn new(heap: Global) -> Result<State, AllocError>
        ensures empty { IfOk result (λ s. held s ≡ nothing_held) }
        ensures fit { (calls : Bool) → IfOk result (λ s. Fits calls s) }
    {
        let gathering = Gathering::new(heap)?;
        Ok(State::Gathering(Draft {
            gathering,
            named: false,
        }))
    }

    /// Writes a line for each live triangle of the opened surface.
    pub fn write_triangles(&self, out: &mut Vec<u8>) -> Result<(), AllocError>
        ensures written { OnOk result (out.new.items ≡ out.old.items ++ texts (held_lines (held self.now))) }
    {
        match self {
            State::Gathering(_) => Ok(()),
            State::Still(still) => lines::write_gathered(out, still.gathering.corners()),
            State::Opened(hull) => lines::write_triangles(out, hull.edges()),
        }
    }

    /// Opens what is gathered on the gauge of this number, for calls where `CALLS` is true, or refuses to.
    pub fn open<'a, const CALLS: bool>(
        self,
        heap: Global,
        number: u8,
    ) -> Result<(State, Result<Reply<'a>, Refusal>), AllocError>
        requires fit { Fits CALLS self }
        ensures replied { IfOk result (λ p. Replied (held self) (Open number) p.1 (held p.0)) }
        ensures fit { IfOk result (λ p. Fits CALLS p.0) }
    {
        match self {
            State::Gathering(draft) => draft.open::<CALLS>(heap, number),
            opened => Ok((opened, Err(Refusal::OtherState))),
        }
    }

    /// Obeys one command that does not open, or refuses it. What is held is changed where it stands.
    pub fn obey<'a, const CALLS: bool>(
        &mut self,
        command: Command<'a>,
    ) -> Result<Reply<'a>, Refusal>
        requires fit { Fits CALLS self.old }
        requires known { Known CALLS command }
        requires no_opening { (k : ℕ) → command ≢ Open k }
        ensures replied { Replied (held self.old) command.entry result (held self.new) }
        ensures fit { Fits CALLS self.new }
    {
        match self {
            State::Gathering(draft) => match command {
                Command::Name(name) => draft.name(name),
                Command::Vertex(x, y, z) => draft.vertex(x, y, z),
                Command::Triangle(a, b, c) => draft.triangle(a, b, c),
                Command::End => Ok(Reply::Ended(Counts::default())),
                _ => Err(Refusal::OtherState),
            },
            State::Still(still) => match command {
                Command::Write => Ok(Reply::Triangles),
                Command::End => Ok(Reply::Ended(still.counts)),
                _ => Err(Refusal::OtherState),
            },
            State::Opened(hull) => match command {
                Command::Call(call) => hull.call(call),
                Command::Write => Ok(Reply::Triangles),
                Command::End => Ok(Reply::Ended(hull.counts())),
                _ => Err(Refusal::OtherState), // Nothing is gathered once a surface is opened.
            },
        }
    }
}
