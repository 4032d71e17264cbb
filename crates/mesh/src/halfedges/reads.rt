//! Reading the half-edges. A number that no half-edge or vertex has reads as 0.
ghost use Rattle.std.specs.Prelude.{◌≡◌, ◌/◌, true, vec_len, slice_index};
ghost use Rattle.surface.specs.Surface.{next, prev};
ghost use Rattle.surface.specs.Ring.{Turn};
ghost use Rattle.mesh.specs.Held.{opposite};
ghost use Rattle.mesh.specs.Model.{held};
ghost use Rattle.mesh.specs.Reads.{Outgoing, Leads};

use super::HalfEdges;
use super::turns::{following, preceding};

impl HalfEdges {
    /// How many vertices there are, live and dead.
    pub fn vertex_count(&self) -> usize
        ensures value { result ≡ vec_len self.now.vertices }
    {
        self.vertices.len()
    }

    /// How many half-edges there are, of live and dead triangles.
    pub fn half_edge_count(&self) -> usize
        ensures value { result ≡ vec_len self.now.corners }
    {
        self.corners.len()
    }

    /// Whether `h` is a half-edge of a live triangle.
    #[tactic(auto, unfolding(surface::specs::Read::read))]
    pub fn is_live(&self, h: u16) -> bool
        ensures value { result ≡ (held self.now).alive (h / 3) }
    {
        let t = usize::from(h / 3);
        self.triangles.get(t).copied().unwrap_or(false)
    }

    /// The vertex at which `h` begins.
    #[tactic(auto, unfolding(surface::specs::Read::read))]
    pub fn start(&self, h: u16) -> u16
        ensures value { result ≡ (held self.now).corner h }
    {
        entry(&self.corners, usize::from(h))
    }

    /// The vertex at which `h` ends.
    #[tactic(auto, unfolding(surface::specs::Read::read))]
    pub fn end(&self, h: u16) -> u16
        ensures value { result ≡ (held self.now).corner (next h) }
    {
        entry(&self.corners, following(h))
    }

    /// The third corner of the triangle of `h`.
    #[tactic(auto, unfolding(surface::specs::Read::read))]
    pub fn third(&self, h: u16) -> u16
        ensures value { result ≡ (held self.now).corner (prev h) }
    {
        entry(&self.corners, preceding(h))
    }

    /// The half-edge that runs opposite to `h`.
    pub fn twin(&self, h: u16) -> u16
        ensures runs_opposite { (held self.now).alive (h / 3) ≡ true → opposite (held self.now) h result ≡ true }
    {
        entry(&self.twin, usize::from(h))
    }

    /// A half-edge that begins at the vertex `v`, if `v` is live.
    pub fn outgoing(&self, v: u16) -> Option<u16>
        ensures begins { Outgoing (held self.now) v result }
    {
        let i = usize::from(v);
        let live = self.vertices.get(i).copied().unwrap_or(false);
        live.then_some(entry(&self.out, i))
    }

    /// The half-edge from the vertex `u` to the vertex `w`, if there is one.
    pub fn half_edge(&self, u: u16, w: u16) -> Option<u16>
        ensures leads { Leads (held self.now) u w result }
    {
        self.ring(u).find(|h| self.end(*h) == w)
    }

    /// The half-edge that follows `h` round the vertex at which `h` begins.
    pub fn around(&self, h: u16) -> u16
        ensures turns { (held self.now).alive (h / 3) ≡ true → Turn (held self.now) ((held self.now).corner h) h result }
    {
        entry(&self.twin, preceding(h))
    }
}

/// The entry at place `i`, 0 past the end.
// Kept: reads are total, and the definitions read 0 past the end too.
fn entry(list: &[u16], i: usize) -> u16
    ensures value { result ≡ slice_index list.now i }
{
    list.get(i).copied().unwrap_or(0)
}
