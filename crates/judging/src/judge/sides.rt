//! For each half-edge, the lowest one of the same ordered pair, and the lowest one of the pair turned round.
ghost use Rattle.std.specs.Prelude.{◌≡◌, ℕ, ◌+◌, ◌<◌, length, None, vec_len, slice_index_or};
ghost use Rattle.judging.specs.Sides.{LowestSide, Marks, MarkedAt, BeginsBelow, Found, Paired};

use super::chains::following;
use super::fans::Fans;

// Kept: a struct of the marks and their length would be taken apart in each of the steps that share them.
impl<'a> Fans<'a> {
    /// Marks each vertex to which a half-edge leads from `u` by the lowest such half-edge.
    fn mark_ends(&self, u: usize, marks: &mut [Option<u16>])
        requires vertex { u < vec_len self.now.last }
        requires room { length marks.old ≡ vec_len self.now.last }
        requires below { Marks self.now.corners.now u marks.old }
        ensures marked { MarkedAt self.now.corners.now u marks.new }
    {
        for h in self.outgoing(u) {
            let end = self.corners[following(h as usize)] as usize;
            marks[end] = Some(h);
        }
    }

    /// The lowest half-edge from `u` to `x`, by the marks of `u`.
    fn marked(&self, marks: &[Option<u16>], u: usize, x: usize) -> Option<u16>
        requires ready { MarkedAt self.now.corners.now u marks.now }
        requires vertex { x < length marks.now }
        ensures lowest { LowestSide self.now.corners.now u x result }
    {
        marks[x].filter(|g| usize::from(self.corners[usize::from(*g)]) == u)
    }

    /// Fills in the entries of the half-edges that begin at `u`, and of those that end there.
    fn match_sides(
        &self,
        marks: &[Option<u16>],
        u: usize,
        first: &mut [Option<u16>],
        twin: &mut [Option<u16>],
    )
        requires vertex { u < vec_len self.now.last }
        requires room { length marks.now ≡ vec_len self.now.last }
        requires ready { MarkedAt self.now.corners.now u marks.now }
        requires so_far { Found self.now.corners.now (BeginsBelow self.now.corners.now u) first.old twin.old }
        ensures found { Found self.now.corners.now (BeginsBelow self.now.corners.now (u + 1)) first.new twin.new }
    {
        for h in self.outgoing(u) {
            let after = following(h as usize);
            let before = following(after);
            first[h as usize] = self.marked(marks, u, self.corners[after] as usize);
            twin[before] = self.marked(marks, u, self.corners[before] as usize);
        }
    }

    /// Pairs all half-edges.
    pub(super) fn pair_sides(
        &self,
        marks: &mut [Option<u16>],
        first: &mut [Option<u16>],
        twin: &mut [Option<u16>],
    )
        requires room { length marks.old ≡ vec_len self.now.last }
        requires unmarked { (v : ℕ) → v < length marks.old → slice_index_or marks.old v None ≡ None }
        requires first_room { length first.old ≡ length self.now.corners.now }
        requires twin_room { length twin.old ≡ length self.now.corners.now }
        ensures paired { Paired self.now.corners.now first.new twin.new }
    {
        for u in 0..self.last.len() {
            self.mark_ends(u, marks);
            self.match_sides(marks, u, first, twin);
        }
    }
}
