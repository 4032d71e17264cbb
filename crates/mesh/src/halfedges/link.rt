//! The test that a collapse has a closed outcome.
ghost use Rattle.std.specs.Prelude.{◌≡◌, ◌/◌, true};
ghost use Rattle.surface.specs.Surface.{next};
ghost use Rattle.surface.specs.Closed.{Closed};
ghost use Rattle.surface.specs.Collapse.{collapse};
ghost use Rattle.surface.specs.Permitted.{HasThree};
ghost use Rattle.mesh.specs.Model.{held};
ghost use Rattle.mesh.specs.Reads.{Exactly, OnlyCommon, Clear};

use super::HalfEdges;

impl HalfEdges {
    /// Whether the surface is closed once the half-edge `e` is collapsed.
    pub(crate) fn link_holds(&self, e: u16) -> bool
        requires live { (held self.now).alive (e / 3) ≡ true }
        ensures closes { Exactly result (Closed (collapse (held self.now) ((held self.now).corner e) ((held self.now).corner (next e)))) }
    {
        let u = self.start(e);
        let w = self.end(e);
        let a = self.third(e);
        let b = self.third(self.twin(e));
        self.only_common(u, w, a, b) && !(self.has_three(u) && self.has_three(w))
    }

    /// Whether `u` and `w` have no common neighbours but `a` and `b`.
    fn only_common(&self, u: u16, w: u16, a: u16, b: u16) -> bool
        ensures only { Exactly result (OnlyCommon (held self.now) u w a b) }
    {
        self.ring(u).all(|h| self.clear(h, w, a, b))
    }

    /// Whether `h` leads to no neighbour of `w` but `a` and `b`.
    fn clear(&self, h: u16, w: u16, a: u16, b: u16) -> bool
        ensures clear { Exactly result (Clear (held self.now) w a b h) }
    {
        let c = self.end(h);
        c == a || c == b || self.half_edge(w, c).is_none()
    }

    /// Whether `v` has three neighbours.
    fn has_three(&self, v: u16) -> bool
        ensures three { Exactly result (HasThree (held self.now) v) }
    {
        let Some(first) = self.outgoing(v) else {
            return false;
        };
        let second = self.around(first);
        let third = self.around(second);
        self.around(third) == first
    }
}
