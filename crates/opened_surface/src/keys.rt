//! The keys of the candidates, as the surface and the gauge give them.
ghost use Rattle.queue.specs.Meaning.{keys_of};
ghost use Rattle.opened_surface.specs.Mending.{Accounted, Fit, KeyNow, Refreshed};

use gauge::telling::TellingGauge;
use mesh::mesh::Mesh;
use queue::{Key, Queue};

/// The key of the half-edge `h`, if it is live.
pub(crate) fn key_of<G: TellingGauge>(mesh: &Mesh, gauge: &G, h: u16) -> Option<Key<G::Cost>>
    ensures right { Accounted G.Gauge mesh.now gauge.now → KeyNow G.Gauge mesh.now gauge.now h result }
{
    let edges = mesh.edges();
    if !edges.is_live(h) {
        return None;
    }
    let u = edges.start(h);
    let w = edges.end(h);
    let cost = gauge.cost(mesh, u, w)?;
    Some(Key { cost, u, w })
}

// Kept: `ONLY_MISSING` makes one function of both ways of mending, and which of them runs is chosen at compile time.
/// Gives the half-edge `h` its key, or takes its key away. Where only missing keys are to be given, one that is there stays.
pub(crate) fn refresh<G: TellingGauge, const ONLY_MISSING: bool>(
    mesh: &Mesh,
    gauge: &G,
    queue: &mut Queue<G::Cost>,
    h: u16,
)
    ensures refreshed { Fit G.Gauge mesh.now gauge.now ONLY_MISSING (keys_of queue.old) → Refreshed G.Gauge mesh.now gauge.now h (keys_of queue.old) (keys_of queue.new) }
{
    if ONLY_MISSING && queue.key(usize::from(h)).is_some() {
        return;
    }
    let key = key_of(mesh, gauge, h);
    let _ = queue.set(usize::from(h), key);
}
