//! The first triangle with a zero normal.
ghost use Rattle.std.specs.Prelude.{◌≡◌, length, MatchOption, vec_len};
ghost use Rattle.gathering.specs.Model.{point_of, surface_of};
ghost use Rattle.judging.specs.Flaws.{Lowest, Flat};
ghost use Rattle.judging.specs.Verdict.{NoneFlat};

use super::fans::Fans;
use geometry::{Position, is_flat};

impl<'a> Fans<'a> {
    /// The lowest triangle whose normal is zero.
    pub(super) fn first_flat(&self, positions: &[Position]) -> Option<u16>
        requires vertices { vec_len self.now.last ≡ length positions.now }
        ensures lowest { MatchOption result (NoneFlat (surface_of positions.now self.now.corners.now) (point_of positions.now)) (λ t. Lowest (Flat (surface_of positions.now self.now.corners.now) (point_of positions.now)) t) }
    {
        let (triangles, _) = self.corners.as_chunks::<3>();
        let at = |v: u16| positions[usize::from(v)];
        let t = triangles
            .iter()
            .position(|[a, b, c]| is_flat(at(*a), at(*b), at(*c)))?;
        Some(t as u16)
    }
}
