//! Drawing the live surface of a mesh into lent lists.
#![tactic(auto)]

ghost use Rattle.drawing.specs.Drawn.{Draws};

use crate::places::{count_vertices, live_triangles, number_vertices};
use crate::point::Point;
use crate::refusal::TooShort;
use crate::writing::{write_points, write_triangles};
use mesh::mesh::Mesh;

pub mod law;
pub mod places;
pub mod point;
pub mod refusal;
pub mod regathering;
mod writing;

/// Writes the live vertices, in metres, and the live triangles, each by rising number. The corners of a triangle are
/// numbered by the places of the vertices in `points`. Answers how many vertices and how many triangles were written.
pub fn draw(
    mesh: &Mesh,
    points: &mut [Point],
    triangles: &mut [[u16; 3]],
) -> Result<(usize, usize), TooShort>
    ensures drawn { Draws mesh.now points.old triangles.old result points.new triangles.new }
{
    let edges = mesh.edges();
    let vertex_count = usize::from(count_vertices(edges));
    let triangle_count = usize::from(live_triangles(edges));
    if points.len() < vertex_count || triangles.len() < triangle_count {
        return Err(TooShort);
    }
    // Kept: draw takes no memory, and a mesh has no more vertices than this.
    let mut places = [0; 1024];
    number_vertices(edges, &mut places);
    write_points(mesh, points);
    write_triangles(edges, &places, triangles);
    Ok((vertex_count, triangle_count))
}
