//! A closed surface by its half-edges: half-edge 3 t + k runs from corner k of triangle t to the next corner.
ghost use Rattle.std.specs.Prelude.{◌≡◌, ◌*◌, ◌≤◌, vec_len};
ghost use Rattle.surface.specs.Closed.{Closed};
ghost use Rattle.surface.specs.Read.{read};
ghost use Rattle.mesh.specs.Held.{TwinsLive, OutLive};

// Kept: functions of `edits`, `fold` and `link` ask `requires live`, since that a half-edge is live is a fact of its number and of the surface as it is just then.
pub mod edits;
mod fold;
mod link;
mod making;
pub mod reads;
pub mod ring;
mod turns;

#[derive(Drop)]
pub struct HalfEdges {
    // Kept as lists of their own: an edit rewrites one of them while it reads another.
    // by half-edge: the vertex at which it begins, and the half-edge that runs opposite
    corners: Vec<u16>,
    twin: Vec<u16>,
    // by vertex: a half-edge that begins there
    out: Vec<u16>,
    // which triangles and which vertices are live
    triangles: Vec<bool>,
    vertices: Vec<bool>,
    ghost few: { vec_len corners ≤ 6144 },
    ghost threes: { vec_len corners ≡ 3 * vec_len triangles },
    ghost twin_long: { vec_len twin ≡ vec_len corners },
    ghost few_vertices: { vec_len vertices ≤ 1024 },
    ghost out_long: { vec_len out ≡ vec_len vertices },
    ghost closed: { ∥ Closed (read corners.items triangles.items vertices.items) ∥₁ },
    ghost twins: { TwinsLive (read corners.items triangles.items vertices.items) twin.items },
    ghost outs: { OutLive (read corners.items triangles.items vertices.items) out.items },
}
