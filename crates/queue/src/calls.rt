//! Making a queue, giving and taking keys, and the least.
ghost use Rattle.std.specs.Prelude.{◌≡◌, ◌<◌, ◌≤◌, true, length, replicate, is_some, IfSome, IfOk, Some, None, MatchOption, MatchResult, slice_index_or, slice_set};
ghost use Rattle.queue.specs.Meaning.{Held, Least, NoKeys, Why, keys_of};

use crate::heap::Heap;
use crate::{BeyondLimit, Key, Queue, Refusal};
use order::Ordered;
use std::alloc::Global;

/// The most candidates that a queue can hold.
const MOST: usize = 6144;

impl<C: Ordered + Copy> Queue<C> {
    /// A queue for the candidates below `limit`, none of which has a key. All memory is taken here.
    pub fn new(heap: Global, limit: usize) -> Result<Queue<C>, Refusal>
        ensures empty { IfOk result (λ q. keys_of q ≡ replicate limit None) }
        ensures cases { MatchResult result (λ _. limit ≤ 6144) (Why limit) }
    {
        if limit > MOST {
            return Err(Refusal::TooMany);
        }
        let heap = Heap::new(heap, limit)?;
        Ok(Queue { heap })
    }

    /// The key of a candidate, if it has one.
    pub fn key(&self, number: usize) -> Option<Key<C>>
        ensures { result ≡ slice_index_or (keys_of self.now) number None }
    {
        self.heap.keys.get(number).copied().flatten()
    }

    /// The candidate of the least key, with that key.
    pub fn least(&self) -> Option<(usize, Key<C>)>
        ensures held { MatchOption result (NoKeys (keys_of self.now)) (λ x. Held (keys_of self.now) x.0 x.1) }
        ensures least { IfSome result (λ x. Least C.Ordered self.now x.1) }
    {
        if self.heap.count == 0 {
            return None;
        }
        Some(self.heap.holder(0))
    }

    /// Gives a candidate with no key its first.
    fn insert(&mut self, number: usize, key: Key<C>)
        requires within { number < length (keys_of self.old) }
        requires absent { slice_index_or (keys_of self.old) number None ≡ None }
        ensures { keys_of self.new ≡ slice_set (keys_of self.old) number (Some key) }
    {
        let heap = &mut self.heap;
        let seat = heap.seating.seat(number);
        let last = heap.count;
        heap.seating.exchange(seat, last);
        heap.keys[number] = Some(key);
        heap.count = last + 1;
        heap.settle(last);
    }

    /// Gives a candidate another key.
    fn change(&mut self, number: usize, key: Key<C>)
        requires within { number < length (keys_of self.old) }
        requires present { is_some (slice_index_or (keys_of self.old) number None) ≡ true }
        ensures { keys_of self.new ≡ slice_set (keys_of self.old) number (Some key) }
    {
        let heap = &mut self.heap;
        let seat = heap.seating.seat(number);
        heap.keys[number] = Some(key);
        heap.settle(seat);
    }

    /// Takes a candidate's key away.
    fn remove(&mut self, number: usize)
        requires within { number < length (keys_of self.old) }
        requires present { is_some (slice_index_or (keys_of self.old) number None) ≡ true }
        ensures { keys_of self.new ≡ slice_set (keys_of self.old) number None }
    {
        let heap = &mut self.heap;
        let seat = heap.seating.seat(number);
        let last = heap.count - 1;
        heap.seating.exchange(seat, last);
        heap.keys[number] = None;
        heap.count = last;
        if seat < last {
            heap.settle(seat);
        }
    }

    /// Gives a candidate a key in place of what it had, or none. A number at or beyond the limit is refused,
    /// and then nothing changes.
    pub fn set(&mut self, number: usize, key: Option<Key<C>>) -> Result<(), BeyondLimit>
        ensures cases { MatchResult result (λ _. number < length (keys_of self.old)) (λ _. (length (keys_of self.old) ≤ number) × (self.new ≡ self.old)) }
        ensures keys { keys_of self.new ≡ slice_set (keys_of self.old) number key }
    {
        let held = self.heap.keys.get(number).ok_or(BeyondLimit)?;
        match (*held, key) {
            (None, None) => {}
            (None, Some(key)) => self.insert(number, key),
            (Some(_), None) => self.remove(number),
            (Some(_), Some(key)) => self.change(number, key),
        }
        Ok(())
    }
}
