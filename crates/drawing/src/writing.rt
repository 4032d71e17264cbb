//! Writing the live vertices and triangles.
ghost use Rattle.std.specs.Prelude.{◌≡◌, ◌*◌, ◌<◌, ◌≤◌, true, length, vec_len};
ghost use Rattle.mesh.specs.Model.{held, surface as surface_of};
ghost use Rattle.drawing.specs.Places.{place, triangle_place, Numbering, corners_at};
ghost use Rattle.drawing.specs.Drawn.{Pointed, Cornered};

use crate::places::is_vertex;
use crate::point::Point;
use mesh::halfedges::HalfEdges;
use mesh::mesh::Mesh;

/// Writes the live vertices.
pub(crate) fn write_points(mesh: &Mesh, points: &mut [Point])
    requires room { place (surface_of mesh.now) (vec_len mesh.now.edges.vertices) ≤ length points.old }
    ensures written { Pointed (surface_of mesh.now) mesh.now.positions.items (vec_len mesh.now.edges.vertices) points.old points.new }
{
    let edges = mesh.edges();
    let positions = mesh.positions();
    // Kept as a count of its own: by `enumerate` the proof did not close; over a zip with `iter_mut` only the list's length is known at `returns`.
    let mut k = 0;
    for v in 0..edges.vertex_count() {
        if is_vertex(edges, v as u16) {
            points[k] = Point::from(positions[v]);
            k += 1;
        }
    }
}

/// The places of the corners of the live triangle `t`.
// Kept: half-edges and places are lent apart; a struct of the two would be made by `draw` alone, for this one use.
fn corner_places(edges: &HalfEdges, places: &[u16], t: u16) -> [u16; 3]
    requires live { (held edges.now).alive t ≡ true }
    requires room { vec_len edges.now.vertices ≤ length places.now }
    requires numbered { Numbering (held edges.now) (vec_len edges.now.vertices) places.now }
    ensures value { result ≡ corners_at (held edges.now) t }
{
    let h = 3 * t;
    let a = usize::from(edges.start(h));
    let b = usize::from(edges.end(h));
    let c = usize::from(edges.third(h));
    [places[a], places[b], places[c]]
}

/// Writes the live triangles.
pub(crate) fn write_triangles(edges: &HalfEdges, places: &[u16], triangles: &mut [[u16; 3]])
    requires long { vec_len edges.now.vertices ≤ length places.now }
    requires numbered { Numbering (held edges.now) (vec_len edges.now.vertices) places.now }
    requires room { triangle_place (held edges.now) (vec_len edges.now.triangles) ≤ length triangles.old }
    ensures written { Cornered (held edges.now) (vec_len edges.now.triangles) triangles.old triangles.new }
{
    // Kept as a count of its own, as in `write_points`.
    let mut k = 0;
    for t in 0..edges.half_edge_count() / 3 {
        if edges.is_live((3 * t) as u16) {
            triangles[k] = corner_places(edges, places, t as u16);
            k += 1;
        }
    }
}
