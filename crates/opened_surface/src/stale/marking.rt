//! Which vertices a collapse and its undoing make stale.
ghost use Rattle.std.specs.Prelude.{◌≡◌, ℕ, ◌<◌, length, replicate, IfOk, None};
ghost use Rattle.surface.specs.Surface.{Side};
ghost use Rattle.mesh.specs.Model.{surface as surface_of};
ghost use Rattle.queue.specs.Meaning.{keys_of};
ghost use Rattle.opened_surface.specs.Marks.{Marked, Wider};
ghost use Rattle.opened_surface.specs.Stale.{repriced as repriced_of, reopened as reopened_of, Covered, Grown, Sized};

use super::{Stale, mark_in};
use gauge::telling::TellingGauge;
use mesh::mesh::Mesh;
use queue::{Queue, Refusal};
use std::alloc::Global;

impl Stale {
    /// No vertex is stale, of `count` vertices.
    pub(crate) fn new(heap: Global, count: usize) -> Result<Stale, Refusal>
        ensures empty { IfOk result (λ s. (repriced_of s ≡ replicate count None) × (reopened_of s ≡ replicate count None)) }
    {
        let repriced = Queue::new(heap, count)?;
        let reopened = Queue::new(heap, count)?;
        Ok(Stale { repriced, reopened })
    }
}

/// Makes the neighbours of the vertex `u` members of the set.
fn mark_ring(mesh: &Mesh, set: &mut Queue<u64>, u: u16)
    ensures wider { Wider (keys_of set.old) (keys_of set.new) }
    ensures round { (x : ℕ) → Side (surface_of mesh.now) u x → x < length (keys_of set.old) → Marked (keys_of set.new) x }
{
    let edges = mesh.edges();
    for h in edges.ring(u) {
        mark_in(set, edges.end(h));
    }
}

/// Makes stale what the collapse of `u` to `w`, or its undoing, changes; `u` is live in the mesh.
pub(crate) fn mark_around<G: TellingGauge>(mesh: &Mesh, stale: &mut Stale, u: u16, w: u16)
    ensures grown { Grown stale.old stale.new }
    ensures covered { Sized mesh.now stale.old → Side (surface_of mesh.now) u w → Covered G.blind (surface_of mesh.now) u w (repriced_of stale.new) (reopened_of stale.new) }
{
    mark_in(&mut stale.repriced, u);
    mark_in(&mut stale.repriced, w);
    if G::is_blind() {
        mark_ring(mesh, &mut stale.reopened, u);
    } else {
        mark_ring(mesh, &mut stale.repriced, u);
    }
}
