//! An opened surface.
ghost use Rattle.std.specs.Prelude.{Ok};
ghost use Rattle.std.specs.Coded.{Coded-set, coded_list};
ghost use Rattle.judging.specs.Verdict.{JudgedSurface};
ghost use Rattle.mesh.specs.Laws.{triangle_slots, vertex_slots};
ghost use Rattle.mesh.specs.Model.{opening as opening_of, points as points_of};
ghost use Rattle.opened_surface.specs.Props.{tied_prop};
ghost use Rattle.opened_surface.specs.Tied.{Tied};

use crate::thinning::Thinning;
use gauge::Gauge;
use judging::verdict::Counts;
use std::marker::PhantomData;

pub mod calls;
pub mod opening;
pub mod reads;
pub mod thinned;

/// A surface with its log and the gauge that has its account.
#[derive(Drop)]
pub struct Opened<G: Gauge> {
    thinning: Thinning<G>,
    // of the surface as it was opened
    counts: Counts,
    // says that two lists of entries are equal in one way at most
    entries: PhantomData<G::Entry>,
    ghost tied: { Tied G.Gauge G.Cost.Ordered thinning } by { tied_prop (Coded-set G.Cost.code) G.Gauge (Coded-set (coded_list G.Entry.code)) G.Cost.Ordered thinning },
    ghost judged: { ∥ JudgedSurface (opening_of thinning.mesh) (points_of thinning.mesh) (triangle_slots thinning.mesh) (vertex_slots thinning.mesh) (Ok counts) ∥₁ },
}
