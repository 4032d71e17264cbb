//! The opened surface, on the gauge that it was opened on.
ghost use Rattle.std.specs.Prelude.{◌≡◌};
ghost use Rattle.judging.specs.Verdict.{Counted};
ghost use Rattle.mesh.specs.Laws.{triangle_slots, vertex_slots};
ghost use Rattle.mesh.specs.Model.{surface as surface_of};
ghost use Rattle.opened_surface.specs.Tied.{book_of};
ghost use Rattle.session.specs.Calls.{RepliedOn};
ghost use Rattle.session.specs.Held.{hull_gauge, hull_mesh};

use crate::calling::make_call;
use crate::refusal::Refusal;
use crate::reply::Reply;
use judging::verdict::Counts;
use ledger::call::Call;
use mesh::halfedges::HalfEdges;
use opened_surface::opened::Opened;
use planes::planes::Planes;
use sweep::Sweep;

/// An opened surface: what the session works on, by the gauge of its costs.
#[derive(Drop)]
pub enum Hull {
    Planes(Opened<Planes>),
    Sweep(Opened<Sweep>),
}

impl Hull {
    /// Makes a call, and answers it.
    pub fn call<'a>(&mut self, call: Call) -> Result<Reply<'a>, Refusal>
        ensures gauge { hull_gauge self.new ≡ hull_gauge self.old }
        ensures replied { RepliedOn (hull_gauge self.old) (book_of (hull_mesh self.old)) call result (book_of (hull_mesh self.new)) }
    {
        match self {
            Hull::Planes(opened) => make_call(opened, call),
            Hull::Sweep(opened) => make_call(opened, call),
        }
    }

    /// The counts of the surface as it is now.
    pub fn counts(&self) -> Counts
        ensures counted { Counted (surface_of (hull_mesh self.now)) (triangle_slots (hull_mesh self.now)) (vertex_slots (hull_mesh self.now)) result }
    {
        match self {
            Hull::Planes(opened) => opened.counts(),
            Hull::Sweep(opened) => opened.counts(),
        }
    }

    /// The half-edges of the surface as it is now.
    pub fn edges(&self) -> &HalfEdges
        ensures value { result.now ≡ (hull_mesh self.now).edges }
    {
        match self {
            Hull::Planes(opened) => opened.mesh().edges(),
            Hull::Sweep(opened) => opened.mesh().edges(),
        }
    }
}
