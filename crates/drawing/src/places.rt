//! The places of the live vertices and triangles.
ghost use Rattle.std.specs.Prelude.{◌≡◌, ◌≤◌, length, vec_len};
ghost use Rattle.mesh.specs.Model.{held};
ghost use Rattle.drawing.specs.Places.{place, triangle_place, Numbering};

use mesh::halfedges::HalfEdges;

/// Whether `v` is a live vertex.
pub(crate) fn is_vertex(edges: &HalfEdges, v: u16) -> bool
    ensures value { result ≡ (held edges.now).present v }
{
    edges.outgoing(v).is_some()
}

/// Writes the place of each vertex at its number.
pub(crate) fn number_vertices(edges: &HalfEdges, places: &mut [u16])
    requires room { vec_len edges.now.vertices ≤ length places.old }
    ensures numbered { Numbering (held edges.now) (vec_len edges.now.vertices) places.new }
{
    // Kept as a running count: it is the place that is written at each vertex.
    let mut place: u16 = 0;
    for v in 0..edges.vertex_count() {
        places[v] = place;
        if is_vertex(edges, v as u16) {
            place += 1;
        }
    }
}

/// How many vertices are live.
pub fn count_vertices(edges: &HalfEdges) -> u16
    ensures value { result ≡ place (held edges.now) (vec_len edges.now.vertices) }
{
    (0..edges.vertex_count())
        .filter(|v| is_vertex(edges, *v as u16))
        .count() as u16
}

/// How many triangles are live.
pub fn live_triangles(edges: &HalfEdges) -> u16
    ensures value { result ≡ triangle_place (held edges.now) (vec_len edges.now.triangles) }
{
    (0..edges.half_edge_count() / 3)
        .filter(|t| edges.is_live((3 * *t) as u16))
        .count() as u16
}
