//! The numbers 0, 1, 2 and so on, each on a seat of its own, and the seat of each.
ghost use Rattle.std.specs.Prelude.{◌≡◌, ℕ, ◌<◌, ◌≤◌, IfOk, vec_len, slice_index};
ghost use Rattle.std.specs.List.{swap};
ghost use Rattle.queue.specs.Seating.{Inverse};

use std::alloc::{AllocError, Global};

/// `number` has the number on each seat, and `seat` the seat of each number.
// Kept: the two lists are inverse of each other, not parallel, so that the seat of a number is found without a search.
#[derive(Drop)]
pub struct Seating {
    number: Vec<u16>,
    seat: Vec<u16>,
    ghost even: { vec_len seat ≡ vec_len number },
    ghost limited: { vec_len number ≤ 6144 },
    ghost seated: { Inverse number.items seat.items },
    ghost numbered: { Inverse seat.items number.items },
}

/// 0, 1, 2 and so on below `n`.
fn counted(heap: Global, n: u16) -> Result<Vec<u16>, AllocError>
    ensures { IfOk result (λ v. (vec_len v ≡ n) × ((k : ℕ) → k < n → slice_index v.items k ≡ k)) }
{
    (0..n).collect(heap)
}

impl Seating {
    /// The numbers below `limit`, each on the seat of its own number.
    pub(super) fn new(heap: Global, limit: usize) -> Result<Seating, AllocError>
        requires { limit ≤ 6144 }
        ensures { IfOk result (λ s. vec_len s.number ≡ limit) }
    {
        let number = counted(heap, limit as u16)?;
        let seat = counted(heap, limit as u16)?;
        Ok(Seating { number, seat })
    }

    /// The number on a seat.
    pub(super) fn number(&self, seat: usize) -> usize
        requires { seat < vec_len self.now.number }
        ensures value { result ≡ slice_index self.now.number.items seat }
        ensures bound { result < vec_len self.now.number }
    {
        usize::from(self.number[seat])
    }

    /// The seat of a number.
    pub(super) fn seat(&self, number: usize) -> usize
        requires { number < vec_len self.now.number }
        ensures there { slice_index self.now.number.items result ≡ number }
        ensures bound { result < vec_len self.now.number }
    {
        usize::from(self.seat[number])
    }

    /// The numbers on two seats change places.
    pub(super) fn exchange(&mut self, a: usize, b: usize)
        requires a_within { a < vec_len self.old.number }
        requires b_within { b < vec_len self.old.number }
        ensures items { self.new.number.items ≡ swap self.old.number.items a b }
        ensures len { vec_len self.new.number ≡ vec_len self.old.number }
    {
        let from_a = usize::from(self.number[a]);
        let from_b = usize::from(self.number[b]);
        self.number.swap(a, b);
        self.seat.swap(from_a, from_b);
    }
}
