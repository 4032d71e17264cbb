//! What a session refuses, and by which number.
ghost use Rattle.std.specs.Prelude.{◌≡◌};
ghost use Rattle.opened_surface.specs.Calls.{refusal_of};
ghost use Rattle.session.specs.Numbers.{number as number_of};
ghost use Rattle.session.specs.declared.refusal.Refusal.TheVariants.{Vertex as vertex_refused, Triangle as triangle_refused, Open as not_opened, Call as call_refused};

use gathering::refusal::{TriangleRefusal, VertexRefusal};
use ledger::call;
use mesh::mesh::permits::CollapseRefusal;
use opened_surface::opened::opening::OpenRefusal;

/// Why a command, or the whole input, is refused.
#[derive(Clone, Copy)]
pub enum Refusal {
    /// The byte is no command's.
    UnknownCommand,
    /// The input ends before the operands do.
    MissingOperands,
    /// The command belongs to the other state.
    OtherState,
    /// The name is empty or too long, or there is one.
    Name,
    /// The input is too long.
    TooLong,
    /// There is no gauge of this number.
    UnknownGauge,
    /// The vertex is not taken.
    Vertex(VertexRefusal),
    /// The triangle is not taken.
    Triangle(TriangleRefusal),
    /// The gathered surface is not opened.
    Open(OpenRefusal),
    /// The call on the opened surface is refused.
    Call(call::Refusal),
}

impl Refusal {
    /// The number that the line of the refusal gives.
    pub fn number(self) -> u8
        ensures value { result ≡ number_of self }
    {
        match self {
            Refusal::Vertex(refusal) => refusal.number(),
            Refusal::Triangle(refusal) => refusal.number(),
            Refusal::Open(refusal) => refusal.number(),
            Refusal::Call(refusal) => refusal.number(),
            Refusal::UnknownCommand => 21,
            Refusal::MissingOperands => 22,
            Refusal::OtherState => 23,
            Refusal::Name => 24,
            Refusal::TooLong => 25,
            Refusal::UnknownGauge => 26,
        }
    }
}

impl From<VertexRefusal> for Refusal {
    ghost from_gives = { λ why r. r ≡ vertex_refused why };

    fn from(why: VertexRefusal) -> Refusal {
        Refusal::Vertex(why)
    }
}

impl From<TriangleRefusal> for Refusal {
    ghost from_gives = { λ why r. r ≡ triangle_refused why };

    fn from(why: TriangleRefusal) -> Refusal {
        Refusal::Triangle(why)
    }
}

impl From<OpenRefusal> for Refusal {
    ghost from_gives = { λ why r. r ≡ not_opened why };

    fn from(why: OpenRefusal) -> Refusal {
        Refusal::Open(why)
    }
}

impl From<call::Refusal> for Refusal {
    ghost from_gives = { λ why r. r ≡ call_refused why };

    fn from(why: call::Refusal) -> Refusal {
        Refusal::Call(why)
    }
}

impl From<CollapseRefusal> for Refusal {
    ghost from_gives = { λ why r. r ≡ call_refused (refusal_of why) };

    fn from(why: CollapseRefusal) -> Refusal {
        Refusal::Call(why.into())
    }
}
