//! Six-volumes in machine integers.
ghost use Rattle.std.specs.Prelude.{◌≡◌, pos, ◌-ℤ◌, ◌*ℤ◌};
ghost use Rattle.surface.specs.Geometry.{six_volume};
ghost use Rattle.geometry.specs.Values.{Bounded, vector_of};

use geometry::{Position, difference, normal_of};

/// Six times the volume of the triangle `p`, `q`, `r` with the point `top`, above zero on the side of its normal.
pub fn six_volume(p: Position, q: Position, r: Position, top: Position) -> i64
    ensures value { result ≡ six_volume (vector_of p) (vector_of q) (vector_of r) (vector_of top) }
    ensures bound { Bounded 99488250 result }
{
    let n = normal_of(p, q, r);
    along(n.x, p.x, top.x) + along(n.y, p.y, top.y) + along(n.z, p.z, top.z)
}

/// `n` times the way from `a` to `b`.
fn along(n: i64, a: u8, b: u8) -> i64
    requires small { Bounded 130050 n }
    ensures value { result ≡ n *ℤ (pos b -ℤ pos a) }
    ensures bound { Bounded 33162750 result }
{
    n * difference(b, a)
}
