//! The half-edges by the ordered pair along which they lead.
ghost use Rattle.std.specs.Prelude.{◌≡◌, ℕ, ◌<◌, true, length, is_some, IfOk, None, slice_index_or};
ghost use Rattle.judging.specs.Props.{paired_prop};
ghost use Rattle.judging.specs.Sides.{Paired};
ghost use Rattle.judging.specs.Tables.{Entries};

use super::fans::Fans;
use std::alloc::{AllocError, Global};

/// The half-edges by the ordered pair along which they lead.
#[derive(Drop)]
pub(crate) struct Pairs<'a> {
    pub(crate) fans: Fans<'a>,
    // Kept: each is read alone, the first for sides that come twice, the twin to become the table of the answer.
    // by half-edge: the lowest one of the same pair, and the lowest one of the pair turned round
    pub(crate) first: Vec<Option<u16>>,
    pub(crate) twin: Vec<Option<u16>>,
    ghost paired: { Paired fans.corners.now first.items twin.items } by { paired_prop _ _ _ },
}

impl<'a> Pairs<'a> {
    /// Pairs the half-edges.
    pub(crate) fn new(heap: Global, fans: Fans<'a>) -> Result<Pairs<'a>, AllocError>
        ensures fans { IfOk result (λ p. p.fans ≡ fans.entry) }
    {
        let mut marks = vec![in heap; None; fans.last.len()]?;
        let mut first = vec![in heap; None; fans.corners.len()]?;
        let mut twin = vec![in heap; None; fans.corners.len()]?;
        fans.pair_sides(&mut marks, &mut first, &mut twin);
        Ok(Pairs { fans, first, twin })
    }
}

/// The entries of a table that has no empty one.
pub(crate) fn entries_of(heap: Global, table: &[Option<u16>]) -> Result<Vec<u16>, AllocError>
    requires full { (k : ℕ) → k < length table.now → is_some (slice_index_or table.now k None) ≡ true }
    ensures entries { IfOk result (λ v. Entries table.now v.items) }
{
    table.iter().map(|entry| entry.unwrap()).collect(heap)
}
