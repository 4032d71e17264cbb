//! The candidates with a key on the first seats.
ghost use Rattle.std.specs.Prelude.{◌≡◌, ◌<◌, ◌≤◌, replicate, IfOk, Some, None, slice_index_or, vec_len};
ghost use Rattle.queue.specs.Filled.{Filled};

use crate::keys::Key;
use crate::seating::Seating;
use std::alloc::{AllocError, Global};

/// For each candidate number its key, if it has one. The candidates with a key sit on the first `count`
/// seats, which are a binary heap where they are sound: each seat but the first has a seat above it whose key
/// is not after its own. So one key more or less moves few candidates.
// Kept: `count` is no length of a list beside it: `keys` and `seating` run over all candidates, also over those with no key.
#[derive(Drop)]
pub struct Heap<C> {
    pub(crate) keys: Vec<Option<Key<C>>>,
    pub(crate) seating: Seating,
    pub(crate) count: usize,
    ghost even: { vec_len seating.number ≡ vec_len keys },
    ghost counted: { count ≤ vec_len keys },
    ghost filled: { Filled count seating.number.items keys.items },
}

impl<C: Copy> Heap<C> {
    ghost use Rattle.queue.specs.Sound.{key_on};

    /// The candidates below `limit`, none of which has a key.
    pub(crate) fn new(heap: Global, limit: usize) -> Result<Heap<C>, AllocError>
        requires { limit ≤ 6144 }
        ensures { IfOk result (λ h. (h.keys.items ≡ replicate limit None) × (h.count ≡ 0)) }
    {
        let keys = vec![in heap; None; limit]?;
        let seating = Seating::new(heap, limit)?;
        Ok(Heap {
            keys,
            seating,
            count: 0,
        })
    }

    /// The key on a seat that has one.
    pub(crate) fn key_on(&self, seat: usize) -> Key<C>
        requires { seat < self.now.count }
        ensures { key_on self.now seat ≡ Some result }
    {
        let number = self.seating.number(seat);
        self.keys[number].unwrap()
    }

    /// The candidate on a seat that has one, with its key.
    pub(crate) fn holder(&self, seat: usize) -> (usize, Key<C>)
        requires { seat < self.now.count }
        ensures held { slice_index_or self.now.keys.items result.0 None ≡ Some result.1 }
        ensures key { key_on self.now seat ≡ Some result.1 }
    {
        (self.seating.number(seat), self.key_on(seat))
    }
}
