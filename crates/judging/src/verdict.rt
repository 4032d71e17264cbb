//! What judging a gathering answers.
ghost use Rattle.std.specs.Prelude.{◌≡◌};
ghost use Rattle.judging.specs.Numbers.{flaw_number, flaw_place};
ghost use Rattle.judging.specs.declared.verdict.Unjudged.TheVariants.{NoMemory};

use std::alloc::AllocError;

/// The counts of a closed surface. By default they are those of no surface, all zero.
#[derive(Clone, Copy, Default)]
pub struct Counts {
    pub vertices: u16,
    pub triangles: u16,
    pub euler: i32,
    pub pieces: u16,
}

/// The first rule that a gathered surface breaks, with the lowest triangle or vertex concerned.
#[derive(Clone, Copy, PartialEq, Eq, Debug)]
pub enum Flaw {
    NoTriangle,
    SideTwice(u16),
    SideUnmet(u16),
    NoRing(u16),
    ZeroNormal(u16),
}

/// Why judging answers no counts.
#[derive(Clone, Copy, PartialEq, Eq, Debug)]
pub enum Unjudged {
    Flawed(Flaw),
    NoMemory,
}

impl From<AllocError> for Unjudged {
    ghost from_gives = { λ _ u. u ≡ NoMemory };

    fn from(_e: AllocError) -> Unjudged {
        Unjudged::NoMemory
    }
}

impl Flaw {
    pub fn number(self) -> u8
        ensures value { result ≡ flaw_number self }
    {
        match self {
            Flaw::NoTriangle => 6,
            Flaw::SideTwice(_) => 7,
            Flaw::SideUnmet(_) => 8,
            Flaw::NoRing(_) => 9,
            Flaw::ZeroNormal(_) => 10,
        }
    }

    /// The lowest triangle or vertex concerned, 0 where there is none.
    // Kept: docs/REFUSALS.md gives each refusal on opening a place, and 0 to the one that concerns none.
    pub fn place(self) -> u16
        ensures value { result ≡ flaw_place self }
    {
        match self {
            Flaw::NoTriangle => 0,
            Flaw::SideTwice(t) | Flaw::SideUnmet(t) | Flaw::ZeroNormal(t) => t,
            Flaw::NoRing(v) => v,
        }
    }
}
