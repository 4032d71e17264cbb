//! Quadrics: polynomials of degree 2 in a point, with coefficients modulo 2^64.
ghost use Rattle.std.specs.Prelude.{◌≡◌, pos, ◌+ℤ◌, ◌*ℤ◌};
ghost use Rattle.geometry.specs.Values.{vector_of};
ghost use Rattle.planes.specs.Quadrics.{residue, plus, minus, at_point, square_of, quadric};

use geometry::{Position, normal_of};
use std::ops::{Add, Sub};

/// The coefficients, each named by its powers of the point's coordinates.
#[derive(Clone, Copy, Default)]
pub struct Quadric {
    pub xx: u64,
    pub yy: u64,
    pub zz: u64,
    pub xy: u64,
    pub xz: u64,
    pub yz: u64,
    pub x: u64,
    pub y: u64,
    pub z: u64,
    pub one: u64,
}

// Kept: sum and difference are ten fields each; one function for both would take the operation.
/// Modulo 2^64.
impl Add for Quadric {
    type Output = Quadric;

    ghost add_gives = { λ q r s. s ≡ plus q r };

    fn add(self, other: Quadric) -> Quadric {
        Quadric {
            xx: self.xx.wrapping_add(other.xx),
            yy: self.yy.wrapping_add(other.yy),
            zz: self.zz.wrapping_add(other.zz),
            xy: self.xy.wrapping_add(other.xy),
            xz: self.xz.wrapping_add(other.xz),
            yz: self.yz.wrapping_add(other.yz),
            x: self.x.wrapping_add(other.x),
            y: self.y.wrapping_add(other.y),
            z: self.z.wrapping_add(other.z),
            one: self.one.wrapping_add(other.one),
        }
    }
}

/// Modulo 2^64.
impl Sub for Quadric {
    type Output = Quadric;

    ghost sub_gives = { λ q r s. s ≡ minus q r };

    fn sub(self, other: Quadric) -> Quadric {
        Quadric {
            xx: self.xx.wrapping_sub(other.xx),
            yy: self.yy.wrapping_sub(other.yy),
            zz: self.zz.wrapping_sub(other.zz),
            xy: self.xy.wrapping_sub(other.xy),
            xz: self.xz.wrapping_sub(other.xz),
            yz: self.yz.wrapping_sub(other.yz),
            x: self.x.wrapping_sub(other.x),
            y: self.y.wrapping_sub(other.y),
            z: self.z.wrapping_sub(other.z),
            one: self.one.wrapping_sub(other.one),
        }
    }
}

impl Quadric {
    /// The value at the point `p`.
    pub fn at(self, p: Position) -> u64
        ensures value { result ≡ at_point self (vector_of p) }
    {
        let along_x = affine(self.xx, self.xy, self.xz, self.x, p);
        let along_y = affine(0, self.yy, self.yz, self.y, p);
        let along_z = affine(0, 0, self.zz, self.z, p);
        affine(along_x, along_y, along_z, self.one, p)
    }
}

/// The square of the six-volume of the triangle `p`, `q`, `r` at a point, as a polynomial in that point.
pub fn quadric_of(p: Position, q: Position, r: Position) -> Quadric
    ensures value { result ≡ quadric (vector_of p) (vector_of q) (vector_of r) }
{
    let n = normal_of(p, q, r);
    let x = n.x.cast_unsigned();
    let y = n.y.cast_unsigned();
    let z = n.z.cast_unsigned();
    let offset = affine(x, y, z, 0, p);
    square_of(x, y, z, offset.wrapping_neg())
}

/// The square of a x + b y + c z + d.
fn square_of(a: u64, b: u64, c: u64, d: u64) -> Quadric
    ensures value { result ≡ square_of (pos a) (pos b) (pos c) (pos d) }
{
    Quadric {
        xx: a.wrapping_mul(a),
        yy: b.wrapping_mul(b),
        zz: c.wrapping_mul(c),
        xy: twice(a, b),
        xz: twice(a, c),
        yz: twice(b, c),
        x: twice(a, d),
        y: twice(b, d),
        z: twice(c, d),
        one: d.wrapping_mul(d),
    }
}

/// 2 a b, modulo 2^64.
fn twice(a: u64, b: u64) -> u64
    ensures value { result ≡ residue (pos 2 *ℤ (pos a *ℤ pos b)) }
{
    a.wrapping_mul(b).wrapping_mul(2)
}

/// a x + b y + c z + d at the point `p`, modulo 2^64.
fn affine(a: u64, b: u64, c: u64, d: u64, p: Position) -> u64
    ensures value { result ≡ residue (pos a *ℤ pos p.x +ℤ pos b *ℤ pos p.y +ℤ pos c *ℤ pos p.z +ℤ pos d) }
{
    let x = a.wrapping_mul(u64::from(p.x));
    let y = b.wrapping_mul(u64::from(p.y));
    let z = c.wrapping_mul(u64::from(p.z));
    x.wrapping_add(y).wrapping_add(z).wrapping_add(d)
}
