//! The gauge by planes.
ghost use Rattle.std.specs.Prelude.{◌≤◌, vec_capacity, vec_len};

use crate::quadric::Quadric;

pub mod calls;

/// A quadric for each opened vertex: the sum of those of the triangles at the vertex and at all that was merged into it.
// Kept: the capacity stands beside the table, since a Vec may have more room than was asked for.
#[derive(Drop)]
pub struct Planes {
    table: Vec<Quadric>,
    // how many vertices it takes
    capacity: usize,
    ghost room: { capacity ≤ vec_capacity table },
    ghost within: { vec_len table ≤ capacity },
}
