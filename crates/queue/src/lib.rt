//! A queue of candidates by number, each with a key or none, that tells the candidate of the least key.
#![tactic(auto)]

ghost use Rattle.std.specs.Prelude.{◌≡◌};
ghost use Rattle.queue.specs.Sound.{Sound};
ghost use Rattle.queue.specs.declared.Refusal.TheVariants.{NoMemory};

use heap::Heap;
use order::Ordered;
use std::alloc::AllocError;

mod calls;
mod heap;
mod keys;
mod seating;
mod sifting;

pub use keys::Key;

/// For each candidate number its key, if it has one. No seat of its heap is led by one below it, so the least
/// is on the first seat.
#[derive(Drop)]
pub struct Queue<C: Ordered> {
    heap: Heap<C>,
    ghost sound: { ∥ Sound C.Ordered heap ∥₁ },
}

/// Why no queue was made: it was to hold more than 6,144 candidates, or there was no memory.
#[derive(Clone, Copy, PartialEq, Eq, Debug)]
pub enum Refusal {
    TooMany,
    NoMemory,
}

/// The number of a candidate is at or beyond the limit.
#[derive(Clone, Copy, PartialEq, Eq, Debug)]
pub struct BeyondLimit;

impl From<AllocError> for Refusal {
    ghost from_gives = { λ _ r. r ≡ NoMemory };

    fn from(_e: AllocError) -> Refusal {
        Refusal::NoMemory
    }
}
