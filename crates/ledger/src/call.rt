//! The calls on an opened surface, and what they answer.
ghost use Rattle.std.specs.Prelude.{◌≡◌};
ghost use Rattle.ledger.specs.Numbers.{number as number_of};

use mesh::mesh::permits::CollapseRefusal;

/// A call on an opened surface.
#[derive(Clone, Copy)]
pub enum Call {
    /// Collapses the first vertex to the second.
    Collapse(u16, u16),
    /// Makes the cheapest collapse that is permitted.
    Step,
    /// Takes the last collapse back.
    Split,
    /// Does the next collapse of the log again.
    Redo,
    /// Goes to a position of the log.
    Go(usize),
}

/// Why a call is refused. A refused call changes nothing.
#[derive(Clone, Copy)]
pub enum Refusal {
    /// The two vertices are not joined by a side.
    NoSide = 13,
    /// The outcome of the collapse is no closed surface.
    NotClosed = 14,
    /// A triangle that the collapse moves would be folded over.
    Folds = 15,
    /// No collapse is permitted.
    NonePermitted = 16,
    /// No collapse is done.
    NothingDone = 17,
    /// No collapse lies ahead.
    NothingAhead = 18,
    /// The log has no such position.
    BeyondLog = 19,
}

/// Why a vertex is not collapsed to another, as a refusal of a call.
impl From<CollapseRefusal> for Refusal {
    ghost use Rattle.ledger.specs.Refusals.{refusal_of};

    ghost from_gives = { λ why refusal. refusal ≡ refusal_of why };

    fn from(why: CollapseRefusal) -> Refusal {
        match why {
            CollapseRefusal::NoSide => Refusal::NoSide,
            CollapseRefusal::NotClosed => Refusal::NotClosed,
            CollapseRefusal::Folds => Refusal::Folds,
        }
    }
}

impl Refusal {
    /// The number of the refusal.
    pub fn number(self) -> u8
        ensures value { result ≡ number_of self }
    {
        self as u8
    }
}

/// What a call answers; `C` is what a collapse costs.
// Kept: the ledger is one relation of calls and answers, and a refusal is an answer by a rule of its own; a Result would name two types for one thing.
#[derive(Drop)]
pub enum Answer<C> {
    /// The cost of the collapse, as it was before the collapse.
    Collapsed(C),
    /// The collapse that was taken, of `u` to `w`, and its cost, as it was before the collapse.
    Stepped { u: u16, w: u16, cost: C },
    /// The new position.
    Split(usize),
    /// The new position.
    Redone(usize),
    /// How many moves were made.
    Went(usize),
    /// The call is refused.
    Refused(Refusal),
}
