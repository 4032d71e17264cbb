//! Mending near the members of a set of vertices.
ghost use Rattle.std.specs.Prelude.{◌≡◌, length};
ghost use Rattle.mesh.specs.Model.{surface as surface_of};
ghost use Rattle.queue.specs.Meaning.{NoKeys, keys_of};
ghost use Rattle.opened_surface.specs.Marks.{NearMark};
ghost use Rattle.opened_surface.specs.Mending.{Accounted, Fit, MendedNow};

use crate::mending::mend_vertex;
use gauge::telling::TellingGauge;
use mesh::mesh::Mesh;
use queue::Queue;

/// Mends the keys of the half-edges that begin or end at a member, or only the missing ones, and empties the set.
pub(crate) fn drain<G: TellingGauge, const ONLY_MISSING: bool>(
    mesh: &Mesh,
    gauge: &G,
    queue: &mut Queue<G::Cost>,
    set: &mut Queue<u64>,
)
    ensures mended { Accounted G.Gauge mesh.now gauge.now × Fit G.Gauge mesh.now gauge.now ONLY_MISSING (keys_of queue.old) → MendedNow G.Gauge mesh.now gauge.now (NearMark (surface_of mesh.now) (keys_of set.old)) (keys_of queue.old) (keys_of queue.new) }
    ensures emptied { NoKeys (keys_of set.new) }
    ensures long { length (keys_of set.new) ≡ length (keys_of set.old) }
{
    while let Some((x, _)) = set.least() {
        mend_vertex::<G, ONLY_MISSING>(mesh, gauge, queue, x as u16);
        let _ = set.set(x, None);
    }
}
