//! The half-edges by the vertex at which they begin.
ghost use Rattle.std.specs.Prelude.{◌≡◌, ◌%◌, ◌<◌, ◌≤◌, length, IfOk, None, vec_len, slice_index_or};
ghost use Rattle.gathering.specs.Limits.{Numbered};
ghost use Rattle.judging.specs.Chains.{Chained};
ghost use Rattle.judging.specs.Props.{chained_prop};
ghost use Rattle.judging.specs.Rings.{degree_of};

use super::chains::chain;
use super::outgoing::Outgoing;
use std::alloc::{AllocError, Global};

/// The half-edges of a surface by the vertex at which they begin.
#[derive(Drop)]
pub(crate) struct Fans<'a> {
    pub(crate) corners: &'a [u16],
    // Kept: a list of half-edges for each vertex would be a block of memory for each; these two lists are one chain for each vertex.
    // by vertex: the last half-edge that begins there
    pub(crate) last: Vec<Option<u16>>,
    // by half-edge: the last one below it that begins at the same vertex
    pub(crate) link: Vec<Option<u16>>,
    ghost few: { length corners.now ≤ 6144 },
    ghost few_vertices: { vec_len last ≤ 1024 },
    ghost threes: { length corners.now % 3 ≡ 0 },
    ghost numbered: { Numbered corners.now (vec_len last) },
    ghost chained: { Chained corners.now (vec_len last) last.items link.items } by { chained_prop _ _ _ _ _ },
}

impl<'a> Fans<'a> {
    /// The half-edges of a surface with `n` vertices.
    pub(crate) fn new(heap: Global, corners: &'a [u16], n: usize) -> Result<Fans<'a>, AllocError>
        requires numbered { Numbered corners.now n }
        requires few { length corners.now ≤ 6144 }
        requires few_vertices { n ≤ 1024 }
        requires threes { length corners.now % 3 ≡ 0 }
        ensures corners { IfOk result (λ f. f.corners.now ≡ corners.now) }
        ensures vertices { IfOk result (λ f. vec_len f.last ≡ n) }
    {
        let mut last = vec![in heap; None; n]?;
        let mut link = vec![in heap; None; corners.len()]?;
        chain(corners, &mut last, &mut link);
        Ok(Fans {
            corners,
            last,
            link,
        })
    }

    /// The half-edges that begin at `v`, from the last to the first.
    pub(super) fn outgoing(&self, v: usize) -> Outgoing<'_>
        requires vertex { v < vec_len self.now.last }
        ensures link { result.link.now ≡ self.now.link.items }
        ensures at { result.at ≡ slice_index_or self.now.last.items v None }
    {
        Outgoing {
            link: self.link.as_slice(),
            at: self.last[v],
        }
    }

    /// How many half-edges begin at `v`.
    pub(super) fn degree(&self, v: usize) -> usize
        requires vertex { v < vec_len self.now.last }
        ensures value { result ≡ degree_of self.now.corners.now v }
    {
        self.outgoing(v).count()
    }
}
