//! What a closed surface of triangles is, what a collapse does to it, and the laws of both.
#![tactic(auto)]

ghost use Rattle.surface.specs.Laws.{LocalTest, SidesCounted, EulerKept, PiecesUnique, PiecesKept, NormalsKept};
ghost use Rattle.surface.specs.Changes.{StarKept, PermittedLocal};

/// The outcome of a collapse is closed just where the local test passes.
pub fn local_test_law()
    ensures stands { LocalTest }
{}

/// Twice the unordered sides of a closed surface are three times its live triangles.
pub fn sides_counted_law()
    ensures stands { SidesCounted }
{}

/// A collapse with a closed outcome takes two triangles and one vertex, and keeps the Euler number.
pub fn euler_kept_law()
    ensures stands { EulerKept }
{}

/// A surface has one number of pieces.
pub fn pieces_unique_law()
    ensures stands { PiecesUnique }
{}

/// A collapse with a closed outcome keeps the number of pieces.
pub fn pieces_kept_law()
    ensures stands { PiecesKept }
{}

/// A permitted collapse makes no normal zero.
pub fn normals_kept_law()
    ensures stands { NormalsKept }
{}

/// A collapse of u to w keeps the triangles at each vertex but u, w and the neighbours of u.
pub fn star_kept_law()
    ensures stands { StarKept }
{}

/// Whether a collapse of x to y is permitted is told from the triangles at x and at y.
pub fn permitted_local_law()
    ensures stands { PermittedLocal }
{}
