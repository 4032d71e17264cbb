//! Candidates rise and sink among the seats until each seat is led by the one above it.
ghost use Rattle.std.specs.Prelude.{◌≡◌, ℕ, ◌+◌, ◌<◌, MatchBool, MatchOption};
ghost use Rattle.queue.specs.Sound.{Exchanged, LeadsUnder, SeatLeads, Sound, SoundBut, SoundButDown, SoundButUp, Under, above, key_on};

use crate::heap::Heap;
use crate::keys::before;
use order::Ordered;

/// The first of the two seats right below `seat`.
fn left_under(seat: usize) -> usize
    requires { seat < 6144 }
    ensures { (0 < result) × (above result ≡ seat) × (above (result + 1) ≡ seat) }
{
    2 * seat + 1
}

// Kept: that a seat is below `count` is a fact of a number and of the heap as it is just then, so each function asks it.
impl<C: Ordered + Copy> Heap<C> {
    /// Whether the key on seat `a` comes before the one on seat `b`.
    fn precedes(&self, a: usize, b: usize) -> bool
        requires a_within { a < self.now.count }
        requires b_within { b < self.now.count }
        ensures { MatchBool result (SeatLeads C.Ordered self.now a b) (SeatLeads C.Ordered self.now b a) }
    {
        before(&self.key_on(a), &self.key_on(b))
    }

    /// The seat above, where the key on `seat` comes before the one there.
    fn rises_to(&self, seat: usize) -> Option<usize>
        requires { seat < self.now.count }
        ensures { MatchOption result (0 < seat → SeatLeads C.Ordered self.now (above seat) seat) (λ up. (0 < seat) × (up ≡ above seat) × SeatLeads C.Ordered self.now seat up) }
    {
        let up = seat.checked_sub(1)? / 2;
        self.precedes(seat, up).then_some(up)
    }

    /// Of the seats right below `seat` the one whose key comes first.
    fn first_under(&self, seat: usize) -> Option<usize>
        requires { seat < self.now.count }
        ensures { MatchOption result ((i : ℕ) → Under self.now seat i → ⊥) (λ down. Under self.now seat down × LeadsUnder C.Ordered self.now down seat) }
    {
        let left = left_under(seat);
        let right = left + 1;
        if left >= self.count {
            return None;
        }
        if right < self.count && self.precedes(right, left) {
            return Some(right);
        }
        Some(left)
    }

    /// The seat right below whose key comes first, where that comes before the one on `seat`.
    fn sinks_to(&self, seat: usize) -> Option<usize>
        requires { seat < self.now.count }
        ensures { MatchOption result (LeadsUnder C.Ordered self.now seat seat) (λ down. Under self.now seat down × SeatLeads C.Ordered self.now down seat × LeadsUnder C.Ordered self.now down seat) }
    {
        let down = self.first_under(seat)?;
        self.precedes(down, seat).then_some(down)
    }

    /// The candidates on two seats with keys change places.
    fn exchange(&mut self, a: usize, b: usize)
        requires a_within { a < self.old.count }
        requires b_within { b < self.old.count }
        ensures keys { self.new.keys ≡ self.old.keys }
        ensures count { self.new.count ≡ self.old.count }
        ensures exchanged { Exchanged (key_on self.old) (key_on self.new) a b }
    {
        self.seating.exchange(a, b);
    }

    // Kept: `sift_up` and `sift_down` keep the order of other seats; one function would take the step as a closure, and its invariant too.
    /// Brings a candidate that can only be too low up from the seat `start` to where it belongs.
    fn sift_up(&mut self, start: usize)
        requires within { start < self.old.count }
        requires rest { SoundButUp C.Ordered self.old start }
        ensures keys { self.new.keys ≡ self.old.keys }
        ensures sound { Sound C.Ordered self.new }
    {
        let mut seat = start;
        while let Some(up) = self.rises_to(seat) {
            self.exchange(seat, up);
            seat = up;
        }
    }

    /// Brings a candidate that can only be too high down from the seat `start` to where it belongs.
    fn sift_down(&mut self, start: usize)
        requires within { start < self.old.count }
        requires rest { SoundButDown C.Ordered self.old start }
        ensures keys { self.new.keys ≡ self.old.keys }
        ensures sound { Sound C.Ordered self.new }
    {
        let mut seat = start;
        while let Some(down) = self.sinks_to(seat) {
            self.exchange(seat, down);
            seat = down;
        }
    }

    /// Brings the candidate on `seat` to where it belongs.
    pub(crate) fn settle(&mut self, seat: usize)
        requires within { seat < self.old.count }
        requires rest { SoundBut C.Ordered self.old seat }
        ensures keys { self.new.keys ≡ self.old.keys }
        ensures sound { Sound C.Ordered self.new }
    {
        if self.rises_to(seat).is_some() {
            self.sift_up(seat);
        } else {
            self.sift_down(seat);
        }
    }
}
