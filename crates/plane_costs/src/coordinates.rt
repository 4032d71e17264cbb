//! The coordinates of an opened surface, of live and dead vertices. They are bytes: who reads one knows that it is at most
//! 255, and so a walk over all of them shows it of all.
ghost use Rattle.std.specs.Prelude.{ℕ};
ghost use Rattle.gathering.specs.Model.{point_of};
ghost use Rattle.geometry.specs.Values.{vector_of};
ghost use Rattle.mesh.specs.Model.{points as points_of};
ghost use Rattle.opened_surface.specs.Parts.{mesh_of};
ghost use Rattle.planes.specs.Exact.{Bytes};

use geometry::Position;
use opened_surface::opened::Opened;
use planes::planes::Planes;

/// Looks at a position.
fn look(position: Position)
    ensures bytes { Bytes (vector_of position) }
{}

/// Looks at each position.
// Kept: a number is known to fit a byte only where code reads it, so no lemma over the list shows it of all, and an iterator chain says no more.
fn look_at(positions: &[Position])
    ensures bytes { (v : ℕ) → Bytes (point_of positions.now v) }
{
    for position in positions {
        look(*position);
    }
}

/// Looks at each position of an opened surface.
pub(crate) fn look_over(opened: &Opened<Planes>)
    ensures bytes { (v : ℕ) → Bytes (points_of (mesh_of opened.now) v) }
{
    look_at(opened.mesh().positions());
}
