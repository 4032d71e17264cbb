//! Keys that are made right again where the surface or the account has changed.
// Kept: mesh and gauge are lent shared and the queue by `&mut`; as methods each would also have to promise that mesh, gauge and stale stay.
ghost use Rattle.std.specs.Prelude.{◌≡◌, ℕ, ◌*◌, ◌/◌, ◌<◌, ◌≤◌, length, vec_len};
ghost use Rattle.mesh.specs.Model.{surface as surface_of};
ghost use Rattle.queue.specs.Meaning.{keys_of};
ghost use Rattle.opened_surface.specs.Mending.{Accounted, Fit, KeyedNow, MendedNow, Touches};

use crate::keys::refresh;
use gauge::telling::TellingGauge;
use mesh::mesh::Mesh;
use queue::Queue;

/// Mends the keys of the half-edges from `first` on and before `end`.
fn mend_range<G: TellingGauge>(
    mesh: &Mesh,
    gauge: &G,
    queue: &mut Queue<G::Cost>,
    first: u16,
    end: u16,
)
    ensures mended { Accounted G.Gauge mesh.now gauge.now → MendedNow G.Gauge mesh.now gauge.now (λ h. (first ≤ h) × (h < end)) (keys_of queue.old) (keys_of queue.new) }
{
    for h in first..end {
        refresh::<G, false>(mesh, gauge, queue, h);
    }
}

/// Gives each half-edge its key.
pub(crate) fn fill<G: TellingGauge>(mesh: &Mesh, gauge: &G, queue: &mut Queue<G::Cost>)
    ensures keyed { Accounted G.Gauge mesh.now gauge.now → 3 * vec_len mesh.now.edges.triangles ≤ length (keys_of queue.old) → KeyedNow G.Gauge mesh.now gauge.now (vec_len mesh.now.edges.triangles) (keys_of queue.new) }
    ensures long { Accounted G.Gauge mesh.now gauge.now → length (keys_of queue.new) ≡ length (keys_of queue.old) }
{
    let count = mesh.edges().half_edge_count();
    mend_range(mesh, gauge, queue, 0, count as u16);
}

/// Mends the keys of the half-edges that begin or end at the vertex `x`, or only the missing ones.
pub(crate) fn mend_vertex<G: TellingGauge, const ONLY_MISSING: bool>(
    mesh: &Mesh,
    gauge: &G,
    queue: &mut Queue<G::Cost>,
    x: u16,
)
    ensures mended { Accounted G.Gauge mesh.now gauge.now × Fit G.Gauge mesh.now gauge.now ONLY_MISSING (keys_of queue.old) → MendedNow G.Gauge mesh.now gauge.now (Touches (surface_of mesh.now) x) (keys_of queue.old) (keys_of queue.new) }
{
    let edges = mesh.edges();
    for h in edges.ring(x) {
        refresh::<G, ONLY_MISSING>(mesh, gauge, queue, h);
        refresh::<G, ONLY_MISSING>(mesh, gauge, queue, edges.twin(h));
    }
}

/// Mends the keys of the three half-edges of triangle `t`.
pub(crate) fn mend_triangle<G: TellingGauge>(
    mesh: &Mesh,
    gauge: &G,
    queue: &mut Queue<G::Cost>,
    t: u16,
)
    requires few { t < 2048 }
    ensures mended { Accounted G.Gauge mesh.now gauge.now → MendedNow G.Gauge mesh.now gauge.now (λ h. h / 3 ≡ t) (keys_of queue.old) (keys_of queue.new) }
{
    mend_range(mesh, gauge, queue, 3 * t, 3 * t + 3);
}
