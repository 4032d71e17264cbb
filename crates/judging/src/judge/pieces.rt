//! Counting the pieces of a surface.
ghost use Rattle.std.specs.Prelude.{◌≡◌, ◌<◌, ◌≤◌, false, [], IfOk, vec_len, vec_capacity, slice_index_or};
ghost use Rattle.surface.specs.Pieces.{Pieces};
ghost use Rattle.surface.specs.Read.{whole};
ghost use Rattle.judging.specs.Floods.{Level, Settled, Grown, Spread, Flooded};

use super::chains::following;
use super::fans::Fans;
use std::alloc::{AllocError, Global};

impl<'a> Fans<'a> {
    /// How many pieces the triangles and vertices form.
    pub(crate) fn count_pieces(&self, heap: Global) -> Result<u16, AllocError>
        ensures pieces { IfOk result (λ k. Pieces (whole self.now.corners.now (vec_len self.now.last)) k) }
    {
        let mut seen = vec![in heap; false; self.last.len()]?;
        let mut waiting = Vec::with_capacity(heap, self.last.len())?;
        let mut pieces = 0;
        // Kept: filter and count would change seen in a closure, and a proof learns nothing of what such a closure changed.
        for v in 0..self.last.len() {
            if !seen[v] {
                self.flood(v, &mut seen, &mut waiting);
                pieces += 1;
            }
        }
        Ok(pieces)
    }

    /// Marks the unseen vertex `v` and all that chains of sides lead to from it.
    fn flood(&self, v: usize, seen: &mut [bool], waiting: &mut Vec<u16>)
        requires known { v < vec_len self.now.last }
        requires unseen { slice_index_or seen.old v false ≡ false }
        requires level { Level (vec_len self.now.last) seen.old waiting.old.items }
        requires none { waiting.old.items ≡ [] }
        requires room { vec_len self.now.last ≤ vec_capacity waiting.old }
        requires settled { Settled self.now.corners.now seen.old }
        ensures flooded { Flooded self.now.corners.now (vec_len self.now.last) v seen.old seen.new }
        ensures level { Level (vec_len self.now.last) seen.new waiting.new.items }
        ensures none { waiting.new.items ≡ [] }
        ensures room { vec_len self.now.last ≤ vec_capacity waiting.new }
        ensures settled { Settled self.now.corners.now seen.new }
    {
        seen[v] = true;
        waiting.push_reserved(v as u16);
        while let Some(x) = waiting.pop() {
            self.spread(x as usize, seen, waiting);
        }
    }

    /// Marks the unseen ends of the sides from `x`, and lets them wait.
    fn spread(&self, x: usize, seen: &mut [bool], waiting: &mut Vec<u16>)
        requires known { x < vec_len self.now.last }
        requires level { Level (vec_len self.now.last) seen.old waiting.old.items }
        requires room { vec_len self.now.last ≤ vec_capacity waiting.old }
        ensures grown { Grown self.now.corners.now (vec_len self.now.last) x seen.old waiting.old.items seen.new waiting.new.items }
        ensures spread { Spread self.now.corners.now x seen.new }
        ensures level { Level (vec_len self.now.last) seen.new waiting.new.items }
        ensures room { vec_len self.now.last ≤ vec_capacity waiting.new }
    {
        for h in self.outgoing(x) {
            let y = self.corners[following(h as usize)];
            if !seen[y as usize] {
                seen[y as usize] = true;
                waiting.push_reserved(y);
            }
        }
    }
}
