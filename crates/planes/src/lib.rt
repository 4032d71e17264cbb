//! A gauge by planes: a collapse costs the squares of the six-volumes, at the point that it leads to, of the triangles whose
//! corners stand at its two vertices.
#![tactic(auto)]

ghost use Rattle.planes.specs.Exact.{ExactOnMesh, ExactSum};

pub mod planes;
pub mod quadric;

/// After any merges a cost, though computed modulo 2^64, is the exact sum of those squares.
pub fn exact_sum_law()
    ensures stands { ExactSum }
{}

/// On a mesh, wherever it stands on its log, the cost of a side is that exact sum over the triangles as they were opened.
pub fn exact_on_mesh_law()
    ensures stands { ExactOnMesh }
{}
