//! Reading an opened surface.
ghost use Rattle.std.specs.Prelude.{◌≡◌, ◌<◌, MatchOption};
ghost use Rattle.surface.specs.Surface.{Side};
ghost use Rattle.judging.specs.Verdict.{Counted};
ghost use Rattle.mesh.specs.Laws.{triangle_slots, vertex_slots};
ghost use Rattle.mesh.specs.Model.{surface as surface_of};
ghost use Rattle.ledger.specs.Book.{cost_now};
ghost use Rattle.drawing.specs.Back.{ComesBackWhole};
ghost use Rattle.drawing.specs.Drawn.{Draws};
ghost use Rattle.opened_surface.specs.Parts.{gauge_of, mesh_of};
ghost use Rattle.opened_surface.specs.Redrawn.{AcceptedAgain};
ghost use Rattle.opened_surface.specs.Tied.{book_of};

use super::Opened;
use drawing::draw;
use drawing::places::{count_vertices, live_triangles};
use drawing::point::Point;
use drawing::refusal::TooShort;
use drawing::regathering::{Unfit, redraw};
use gathering::gathering::Gathering;
use gauge::telling::TellingGauge;
use judging::verdict::Counts;
use mesh::mesh::Mesh;
use std::alloc::Global;

impl<G: TellingGauge> Opened<G> {
    /// The surface as it is now, with its log and position.
    pub fn mesh(&self) -> &Mesh
        ensures value { result.now ≡ mesh_of self.now }
    {
        &self.thinning.mesh
    }

    /// The gauge that the surface was opened on.
    pub fn gauge(&self) -> &G
        ensures value { result.now ≡ gauge_of self.now }
    {
        &self.thinning.gauge
    }

    /// The counts of the surface as it is now.
    pub fn counts(&self) -> Counts
        ensures counted { Counted (surface_of (mesh_of self.now)) (triangle_slots (mesh_of self.now)) (vertex_slots (mesh_of self.now)) result }
    {
        let edges = self.thinning.mesh.edges();
        let mut counts = self.counts;
        counts.vertices = count_vertices(edges);
        counts.triangles = live_triangles(edges);
        counts
    }

    /// What the collapse of `u` to `w` costs now, if (`u`, `w`) is a side.
    pub fn cost(&self, u: u16, w: u16) -> Option<G::Cost>
        ensures cost { MatchOption result (Side (surface_of (mesh_of self.now)) u w → ⊥) (λ k. Side (surface_of (mesh_of self.now)) u w × (k ≡ cost_now G.Gauge (G.setting (gauge_of self.now)) (book_of (mesh_of self.now)) u w)) }
    {
        self.thinning.gauge.cost(&self.thinning.mesh, u, w)
    }

    /// Writes the live vertices, in metres, and the live triangles into the lent lists, and answers how many of each.
    pub fn draw(
        &self,
        points: &mut [Point],
        triangles: &mut [[u16; 3]],
    ) -> Result<(usize, usize), TooShort>
        ensures drawn { Draws (mesh_of self.now) points.old triangles.old result points.new triangles.new }
    {
        draw(&self.thinning.mesh, points, triangles)
    }

    /// Draws the surface and gathers what was drawn: a surface of the same shape, that is accepted with the same counts.
    pub fn redraw(&self, heap: Global) -> Result<Gathering, Unfit>
        ensures back { ComesBackWhole (mesh_of self.now) result }
        ensures accepted { AcceptedAgain (mesh_of self.now) result }
    {
        redraw(heap, &self.thinning.mesh)
    }
}
