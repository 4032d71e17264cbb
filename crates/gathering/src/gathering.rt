//! The gathered vertices and triangles.
ghost use Rattle.std.specs.Prelude.{◌≡◌, ◌%◌, ◌≤◌, vec_len, vec_capacity};
ghost use Rattle.gathering.specs.Limits.{Numbered, Differing};

use geometry::Position;

pub mod calls;

/// A surface that is still being gathered. All of its memory is taken when it is made.
#[derive(Drop)]
pub struct Gathering {
    positions: Vec<Position>,
    // three corners to a triangle, one triangle after the other
    // Kept: half-edge 3 * t + k begins at corner k of triangle t, so the flat list is numbered as the half-edges are.
    corners: Vec<u16>,
    ghost vertices: { vec_len positions ≤ 1024 },
    ghost triangles: { vec_len corners ≤ 6144 },
    ghost threes: { vec_len corners % 3 ≡ 0 },
    ghost vertex_room: { 1024 ≤ vec_capacity positions },
    ghost corner_room: { 6144 ≤ vec_capacity corners },
    ghost numbered: { Numbered corners.items (vec_len positions) },
    ghost differing: { Differing corners.items },
}
