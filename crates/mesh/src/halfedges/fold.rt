//! The test that a collapse folds no triangle over.
ghost use Rattle.std.specs.Prelude.{◌≡◌, ◌/◌, ◌<◌, true, length, pos, ◌*ℤ◌, ◌<ℤ◌, vec_len};
ghost use Rattle.surface.specs.Surface.{next};
ghost use Rattle.surface.specs.Geometry.{dot, normal};
ghost use Rattle.surface.specs.Permitted.{Upright};
ghost use Rattle.geometry.specs.Values.{Bounded, value_of, vector_of};
ghost use Rattle.gathering.specs.Model.{point_of};
ghost use Rattle.mesh.specs.Model.{held};
ghost use Rattle.mesh.specs.Reads.{Exactly, Stands};

use super::HalfEdges;
use geometry::{Normal, Position, normal_of};

impl HalfEdges {
    /// Whether the collapse of the half-edge `e` folds none of the triangles that it moves.
    pub(crate) fn upright(&self, positions: &[Position], e: u16) -> bool
        requires live { (held self.now).alive (e / 3) ≡ true }
        requires placed { length positions.now ≡ vec_len self.now.vertices }
        ensures upright { Exactly result (Upright (held self.now) (point_of positions.now) ((held self.now).corner e) ((held self.now).corner (next e))) }
    {
        let w = self.end(e);
        self.ring(self.start(e))
            .all(|h| self.stands(positions, h, w))
    }

    /// Whether the triangle of `h` holds `w`, or is not folded where its corner at `h` moves to `w`.
    fn stands(&self, positions: &[Position], h: u16, w: u16) -> bool
        requires live { (held self.now).alive (h / 3) ≡ true }
        requires placed { length positions.now ≡ vec_len self.now.vertices }
        requires known { w < length positions.now }
        ensures stands { Exactly result (Stands (held self.now) (point_of positions.now) w h) }
    {
        let a = self.start(h);
        let b = self.end(h);
        let c = self.third(h);
        if b == w || c == w {
            return true;
        }
        let q = positions[usize::from(b)];
        let r = positions[usize::from(c)];
        fold_free(positions[usize::from(a)], positions[usize::from(w)], q, r)
    }
}

/// Whether the triangle `from`, `q`, `r` keeps within a right angle of its normal when `from` moves to `to`.
fn fold_free(from: Position, to: Position, q: Position, r: Position) -> bool
    ensures above { Exactly result (pos 0 <ℤ dot (normal (vector_of from) (vector_of q) (vector_of r)) (normal (vector_of to) (vector_of q) (vector_of r))) }
{
    scalar_product(normal_of(from, q, r), normal_of(to, q, r)) > 0
}

fn scalar_product(n: Normal, m: Normal) -> i64
    requires first_small { Bounded 130050 n.x × Bounded 130050 n.y × Bounded 130050 n.z }
    requires second_small { Bounded 130050 m.x × Bounded 130050 m.y × Bounded 130050 m.z }
    ensures value { result ≡ dot (value_of n) (value_of m) }
    ensures bound { Bounded 50739007500 result }
{
    product(n.x, m.x) + product(n.y, m.y) + product(n.z, m.z)
}

fn product(a: i64, b: i64) -> i64
    requires small { Bounded 130050 a × Bounded 130050 b }
    ensures value { result ≡ a *ℤ b }
    ensures bound { Bounded 16913002500 result }
{
    a * b
}
