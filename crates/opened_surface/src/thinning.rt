//! A surface on its way: what a collapse and its undoing change together.
use crate::stale::Stale;
use gauge::Gauge;
use mesh::mesh::Mesh;
use queue::Queue;

mod calls;
mod going;
mod moving;
mod stepping;

/// A mesh, the gauge that has its account, and for each half-edge the key of its collapse in a queue.
// Kept: that it is tied is a premise of each method's promise, not an invariant, since `perform`, `join` and `clear` untie it on the way.
#[derive(Drop)]
pub(crate) struct Thinning<G: Gauge> {
    pub(crate) mesh: Mesh,
    pub(crate) gauge: G,
    pub(crate) queue: Queue<G::Cost>,
    // the vertices near which keys are to be mended before the next step
    pub(crate) stale: Stale,
}
