//! Where a collapse and its undoing leave the keys of candidates as they are: away from its two vertices.
#![tactic(auto)]

ghost use Rattle.mending.specs.Around.{Around};
ghost use Rattle.mending.specs.Laws.{MendedAfter, MendedBefore};

use gauge::Gauge;

/// Keys that are right before a collapse of u to w are right after it, once those of the half-edges that begin or end at w
/// or at a neighbour of w are mended and those of the two dead triangles.
pub fn mended_after_law<G: Gauge>()
    ensures stands { MendedAfter G.Gauge Around }
{}

/// Keys that are right after it are right before it, once those of the half-edges that begin or end at u or at a
/// neighbour of u are mended.
pub fn mended_before_law<G: Gauge>()
    ensures stands { MendedBefore G.Gauge Around }
{}
