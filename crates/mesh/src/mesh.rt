//! A surface and the log of its collapses.
ghost use Rattle.std.specs.Prelude.{◌≡◌, ◌≤◌, length, vec_len, vec_capacity};
ghost use Rattle.surface.specs.Closed.{Closed};
ghost use Rattle.surface.specs.Read.{whole};
ghost use Rattle.gathering.specs.Limits.{Numbered};
ghost use Rattle.gathering.specs.Model.{point_of};
ghost use Rattle.mesh.specs.Stages.{stage, AllPermitted};
ghost use Rattle.mesh.specs.Kept.{CornersAre, TrianglesAre, VerticesAre, TwinsDead, OutDead};

use crate::halfedges::HalfEdges;
use crate::record::Record;
use geometry::Position;

pub mod calls;
pub mod moves;
pub mod opening;
pub mod permits;
pub mod reads;

#[derive(Drop)]
pub struct Mesh {
    positions: Vec<Position>,
    // the corners as the surface was opened
    opened: Vec<u16>,
    edges: HalfEdges,
    // the collapses: those before the position are done, the others lie ahead
    log: Vec<Record>,
    position: usize,
    ghost few_vertices: { vec_len positions ≤ 1024 },
    ghost few_corners: { vec_len opened ≤ 6144 },
    ghost corners_long: { vec_len edges.corners ≡ vec_len opened },
    ghost vertices_long: { vec_len edges.vertices ≡ vec_len positions },
    ghost numbered: { Numbered opened.items (vec_len positions) },
    ghost placed: { position ≤ vec_len log },
    ghost log_room: { vec_len positions ≤ vec_capacity log },
    ghost begun: { ∥ Closed (whole opened.items (length positions.items)) ∥₁ },
    ghost permitted: { AllPermitted (whole opened.items (length positions.items)) (point_of positions.items) log.items },
    ghost corners_are: { CornersAre (stage (whole opened.items (length positions.items)) log.items position) edges.corners.items },
    ghost triangles_are: { TrianglesAre (stage (whole opened.items (length positions.items)) log.items position) edges.triangles.items },
    ghost vertices_are: { VerticesAre (stage (whole opened.items (length positions.items)) log.items position) edges.vertices.items },
    ghost twins_dead: { TwinsDead (whole opened.items (length positions.items)) log.items position edges.twin.items },
    ghost out_dead: { OutDead (whole opened.items (length positions.items)) log.items position edges.out.items },
}
