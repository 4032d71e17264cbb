//! The rings of triangles round the vertices.
ghost use Rattle.std.specs.Prelude.{◌≡◌, ◌<◌, true, false, length, vec_len};
ghost use Rattle.surface.specs.Ring.{Ringed};
ghost use Rattle.surface.specs.Closed.{Single, Matched};
ghost use Rattle.surface.specs.Read.{whole};
ghost use Rattle.judging.specs.Rings.{turned, Turning, Around, FirstUnringed};

use super::chains::following;
use super::pairing::Pairs;

impl<'a> Pairs<'a> {
    /// The half-edge that begins where `h` begins, in the triangle that follows round that vertex.
    fn turn(&self, h: usize) -> usize
        requires turning { Turning self.now.twin.items }
        requires inside { h < length self.now.twin.items }
        ensures value { result ≡ turned self.now.twin.items h }
        ensures inside { result < length self.now.twin.items }
    {
        let before = following(following(h));
        self.twin[before].unwrap() as usize
    }

    /// Whether turning from `start` leads back to it after `around` turns, and not before.
    fn comes_round(&self, start: usize, around: usize) -> bool
        requires turning { Turning self.now.twin.items }
        requires inside { start < length self.now.twin.items }
        requires some { 0 < around }
        ensures yes { result ≡ true → Around self.now.twin.items start around }
        ensures no { result ≡ false → Around self.now.twin.items start around → ⊥ }
    {
        let mut h = self.turn(start);
        for _ in 1..around {
            if h == start {
                return false;
            }
            h = self.turn(h);
        }
        h == start
    }

    /// Whether the triangles with the corner `v` form a ring of three or more.
    fn is_ringed(&self, v: usize) -> bool
        requires single { Single (whole self.now.fans.corners.now (vec_len self.now.fans.last)) }
        requires matched { Matched (whole self.now.fans.corners.now (vec_len self.now.fans.last)) }
        requires vertex { v < vec_len self.now.fans.last }
        ensures yes { result ≡ true → Ringed (whole self.now.fans.corners.now (vec_len self.now.fans.last)) v }
        ensures no { result ≡ false → Ringed (whole self.now.fans.corners.now (vec_len self.now.fans.last)) v → ⊥ }
    {
        let Some(start) = self.fans.last[v] else {
            return false;
        };
        let around = self.fans.degree(v);
        if around < 3 {
            return false;
        }
        self.comes_round(start as usize, around)
    }

    /// The first vertex without a ring.
    pub(super) fn first_unringed(&self) -> Option<u16>
        requires single { Single (whole self.now.fans.corners.now (vec_len self.now.fans.last)) }
        requires matched { Matched (whole self.now.fans.corners.now (vec_len self.now.fans.last)) }
        ensures lowest { FirstUnringed (whole self.now.fans.corners.now (vec_len self.now.fans.last)) result }
    {
        let v = (0..self.fans.last.len()).find(|v| !self.is_ringed(*v))?;
        Some(v as u16)
    }
}
