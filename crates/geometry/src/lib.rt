//! Positions of vertices and the exact normals of triangles.
#![tactic(auto)]

ghost use Rattle.std.specs.Prelude.{◌≡◌, true, pos, ◌-ℤ◌, ◌*ℤ◌};
ghost use Rattle.surface.specs.Geometry.{normal, null};
ghost use Rattle.geometry.specs.Values.{Bounded, value_of, vector_of};

/// Where a vertex lies, in quarter metres.
#[derive(Clone, Copy, Default)]
pub struct Position {
    pub x: u8,
    pub y: u8,
    pub z: u8,
}

/// A normal, not scaled.
#[derive(Clone, Copy, Default, PartialEq)]
pub struct Normal {
    pub x: i64,
    pub y: i64,
    pub z: i64,
}

/// Whether the triangle `a`, `b`, `c` has a zero normal.
pub fn is_flat(a: Position, b: Position, c: Position) -> bool
    ensures zero { result ≡ true → normal (vector_of a) (vector_of b) (vector_of c) ≡ null }
    ensures not_missed { normal (vector_of a) (vector_of b) (vector_of c) ≡ null → result ≡ true }
{
    normal_of(a, b, c) == Normal::default()
}

/// The normal of the triangle `a`, `b`, `c`.
pub fn normal_of(a: Position, b: Position, c: Position) -> Normal
    ensures value { value_of result ≡ normal (vector_of a) (vector_of b) (vector_of c) }
    ensures bound { Bounded 130050 result.x × Bounded 130050 result.y × Bounded 130050 result.z }
{
    let px = difference(b.x, a.x);
    let py = difference(b.y, a.y);
    let pz = difference(b.z, a.z);
    let qx = difference(c.x, a.x);
    let qy = difference(c.y, a.y);
    let qz = difference(c.z, a.z);
    Normal {
        x: minor(py, pz, qy, qz),
        y: minor(pz, px, qz, qx),
        z: minor(px, py, qx, qy),
    }
}

/// The way from `b` to `a` along one axis.
pub fn difference(a: u8, b: u8) -> i64
    ensures value { result ≡ pos a -ℤ pos b }
    ensures bound { Bounded 255 result }
{
    i64::from(a) - i64::from(b)
}

/// The determinant of the rows (`a`, `b`) and (`c`, `d`).
fn minor(a: i64, b: i64, c: i64, d: i64) -> i64
    requires small { Bounded 255 a × Bounded 255 b × Bounded 255 c × Bounded 255 d }
    ensures value { result ≡ a *ℤ d -ℤ b *ℤ c }
    ensures bound { Bounded 130050 result }
{
    a * d - b * c
}
