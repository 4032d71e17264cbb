//! Judging a gathering.
ghost use Rattle.std.specs.Prelude.{◌≡◌, length, Ok, IfErr, IfOk, vec_len};
ghost use Rattle.gathering.specs.Model.{positions as positions_of, corners as corners_of, point_of, surface_of};
ghost use Rattle.judging.specs.Verdict.{FirstFlaw, Judged, WhyNot};

use crate::survey::survey;
use crate::verdict::{Counts, Flaw, Unjudged};
use gathering::gathering::Gathering;
use geometry::Position;
use pairing::Pairs;
use std::alloc::Global;

mod chains;
pub(crate) mod fans;
mod flats;
mod outgoing;
pub(crate) mod pairing;
mod pieces;
mod rings;
mod rules;
mod sides;

/// The first rule that the surface breaks.
pub(crate) fn first_flaw(positions: &[Position], pairs: &Pairs) -> Option<Flaw>
    requires vertices { vec_len pairs.now.fans.last ≡ length positions.now }
    ensures first { FirstFlaw (surface_of positions.now pairs.now.fans.corners.now) (point_of positions.now) result }
{
    if let Some(t) = pairs.first_twice() {
        return Some(Flaw::SideTwice(t));
    }
    if let Some(t) = pairs.first_unmet() {
        return Some(Flaw::SideUnmet(t));
    }
    if let Some(v) = pairs.first_unringed() {
        return Some(Flaw::NoRing(v));
    }
    let t = pairs.fans.first_flat(positions)?;
    Some(Flaw::ZeroNormal(t))
}

/// Judges whether the gathered triangles form a closed surface with no zero normal, and counts what it has.
pub fn judge(heap: Global, gathering: &Gathering) -> Result<Counts, Unjudged>
    ensures accepted { IfOk result (λ n. Judged (positions_of gathering.now) (corners_of gathering.now) (Ok n)) }
    ensures why_not { IfErr result (λ u. WhyNot (positions_of gathering.now) (corners_of gathering.now) u) }
{
    Ok(survey(heap, gathering)?.counts)
}
