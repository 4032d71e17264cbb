//! Collapsing and taking back, on a mesh with its gauge and its queue.
ghost use Rattle.std.specs.Prelude.{◌≡◌, ℕ, ◌<◌, ◌≤◌, length, IfSome, IfNone, MatchOption, OnErr};
ghost use Rattle.surface.specs.Surface.{Side};
ghost use Rattle.mesh.specs.Model.{surface as surface_of, log as log_of};
ghost use Rattle.mesh.specs.Stages.{record_at};
ghost use Rattle.mesh.specs.declared.mesh.Mesh.{Mesh as A-mesh};
ghost use Rattle.ledger.specs.declared.call.Call.TheVariants.{Collapse, Split, Redo};
ghost use Rattle.opened_surface.specs.Calls.{collapse_answer, split_answer, redo_answer};
ghost use Rattle.opened_surface.specs.Stale.{Covered, repriced, reopened};
ghost use Rattle.opened_surface.specs.Tied.{Astride, Joined, Follows, Tied, with_mesh};

use super::Thinning;
use crate::mending::mend_triangle;
use crate::stale::marking::mark_around;
use gauge::telling::TellingGauge;
use mesh::mesh::Mesh;
use mesh::mesh::permits::CollapseRefusal;
use mesh::record::Record;

/// The half-edge from `u` to `w` and the one back, if (`u`, `w`) is a side.
fn astride(mesh: &Mesh, u: u16, w: u16) -> Option<(u16, u16)>
    ensures astride { MatchOption result (Side (surface_of mesh.now) u w → ⊥) (λ x. Astride (surface_of mesh.now) u w x.0 x.1) }
    ensures few { IfSome result (λ x. (x.0 < 6144) × (x.1 < 6144)) }
{
    let edges = mesh.edges();
    let e = edges.half_edge(u, w)?;
    Some((e, edges.twin(e)))
}

/// The next record ahead, its half-edge and the one back, if a record lies ahead.
fn astride_ahead(mesh: &Mesh) -> Option<(Record, u16, u16)>
    ensures ahead { MatchOption result (length (log_of mesh.now) ≤ mesh.now.position) (λ x. (mesh.now.position < length (log_of mesh.now)) × (x.0 ≡ record_at (log_of mesh.now) mesh.now.position) × Astride (surface_of mesh.now) x.0.u x.0.w x.1 x.2) }
    ensures few { IfSome result (λ x. (x.1 < 6144) × (x.2 < 6144)) }
{
    let next = *mesh.log().get(mesh.position())?;
    let (e, f) = astride(mesh, next.u, next.w)?;
    Some((next, e, f))
}

impl<G: TellingGauge> Thinning<G> {
    /// Follows a collapse of `u` to `w` that the mesh has done: merges the entries and takes the keys of the two dead triangles
    /// away. `e` led from `u` to `w`, and `f` back.
    fn join(&mut self, u: u16, w: u16, e: u16, f: u16)
        requires few { (e < 6144) × (f < 6144) }
        ensures tied { (a : A-mesh) → Joined G.Gauge a u w e f self.old.mesh → Covered G.blind (surface_of a) u w (repriced self.old.stale) (reopened self.old.stale) → Tied G.Gauge G.Cost.Ordered (with_mesh a self.old) → Tied G.Gauge G.Cost.Ordered self.new }
        ensures mesh { self.new.mesh ≡ self.old.mesh }
        ensures fixed { G.setting self.new.gauge ≡ G.setting self.old.gauge }
    {
        let _ = self.gauge.merge(u, w);
        mend_triangle(&self.mesh, &self.gauge, &mut self.queue, e / 3);
        mend_triangle(&self.mesh, &self.gauge, &mut self.queue, f / 3);
    }

    /// Collapses `u` to `w` where that is permitted, and answers what it cost just before. If it is not, vertices are made
    /// stale for nothing.
    pub(super) fn perform(&mut self, u: u16, w: u16) -> Result<G::Cost, CollapseRefusal>
        ensures follows { Tied G.Gauge G.Cost.Ordered self.old → Follows G.Gauge G.Cost.Ordered self.old (Collapse u w) (collapse_answer result) self.new }
        ensures unchanged { OnErr result ((self.new.mesh ≡ self.old.mesh) × (self.new.gauge ≡ self.old.gauge)) }
    {
        let cost = self
            .gauge
            .cost(&self.mesh, u, w)
            .ok_or(CollapseRefusal::NoSide)?;
        let (e, f) = astride(&self.mesh, u, w).ok_or(CollapseRefusal::NoSide)?;
        mark_around::<G>(&self.mesh, &mut self.stale, u, w);
        self.mesh.collapse(u, w)?;
        self.join(u, w, e, f);
        Ok(cost)
    }

    /// Collapses `u` to `w` where that is permitted, and answers what it cost just before.
    pub(crate) fn collapse(&mut self, u: u16, w: u16) -> Result<G::Cost, CollapseRefusal>
        ensures follows { Tied G.Gauge G.Cost.Ordered self.old → Follows G.Gauge G.Cost.Ordered self.old (Collapse u w) (collapse_answer result) self.new }
        ensures unchanged { OnErr result ((self.new.mesh ≡ self.old.mesh) × (self.new.gauge ≡ self.old.gauge)) }
    {
        self.mesh.permitted(u, w)?;
        self.perform(u, w)
    }

    /// Takes the last collapse back, if one is done, and answers the new position.
    pub(crate) fn split(&mut self) -> Option<usize>
        ensures follows { Tied G.Gauge G.Cost.Ordered self.old → Follows G.Gauge G.Cost.Ordered self.old Split (split_answer result) self.new }
        ensures unchanged { IfNone result ((self.new.mesh ≡ self.old.mesh) × (self.new.gauge ≡ self.old.gauge)) }
    {
        let last = self.mesh.split()?;
        let _ = self.gauge.part(last.u, last.w);
        mark_around::<G>(&self.mesh, &mut self.stale, last.u, last.w);
        Some(self.mesh.position())
    }

    /// Does the next collapse of the log again, if one lies ahead, and answers the new position.
    pub(crate) fn redo(&mut self) -> Option<usize>
        ensures follows { Tied G.Gauge G.Cost.Ordered self.old → Follows G.Gauge G.Cost.Ordered self.old Redo (redo_answer result) self.new }
        ensures unchanged { IfNone result ((self.new.mesh ≡ self.old.mesh) × (self.new.gauge ≡ self.old.gauge)) }
    {
        let (next, e, f) = astride_ahead(&self.mesh)?;
        mark_around::<G>(&self.mesh, &mut self.stale, next.u, next.w);
        self.mesh.redo()?;
        self.join(next.u, next.w, e, f);
        Some(self.mesh.position())
    }
}
