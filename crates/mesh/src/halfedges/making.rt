//! Making half-edges.
ghost use Rattle.std.specs.Prelude.{◌≡◌, IfOk};
ghost use Rattle.mesh.specs.Opened.{Tabled, AllLive};

use super::HalfEdges;
use std::alloc::{AllocError, Global};

impl HalfEdges {
    /// The half-edges of a closed surface with `n` vertices, all of it live.
    pub(crate) fn all_live(
        heap: Global,
        corners: &[u16],
        n: usize,
        twin: Vec<u16>,
        out: Vec<u16>,
    ) -> Result<HalfEdges, AllocError>
        requires tabled { Tabled corners.now n twin.items out.items }
        ensures live { IfOk result (λ e. AllLive corners.now n e) }
        ensures tables { IfOk result (λ e. (e.twin ≡ twin) × (e.out ≡ out)) }
    {
        let triangles = vec![in heap; true; corners.len() / 3]?;
        let vertices = vec![in heap; true; n]?;
        let corners = Vec::from_slice(heap, corners)?;
        Ok(HalfEdges {
            corners,
            twin,
            out,
            triangles,
            vertices,
        })
    }
}
