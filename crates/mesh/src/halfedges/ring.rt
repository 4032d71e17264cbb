//! The half-edges that begin at a vertex, in turn.
ghost use Rattle.std.specs.Prelude.{◌≡◌, true};
ghost use Rattle.mesh.specs.Rings.{returning};

use super::HalfEdges;

/// The half-edges from one on round the vertex at which it begins.
#[derive(Drop)]
pub struct Ring<'a> {
    edges: &'a HalfEdges,
    first: u16,
    ahead: Option<u16>,
    ghost returns: { returning edges.now first ahead ≡ true },
}

impl Iterator for Ring<'_> {
    ghost use Rattle.std.specs.Iterator.{YieldsFirst, item_count};
    ghost use Rattle.mesh.specs.Ahead.{rest};

    type Item = u16;

    ghost next_gives = { YieldsFirst rest };

    ghost remaining = { item_count rest };

    fn next(&mut self) -> Option<u16> {
        let h = self.ahead?;
        let next = self.edges.around(h);
        self.ahead = (next != self.first).then_some(next);
        Some(h)
    }
}

impl HalfEdges {
    ghost use Rattle.std.specs.Prelude.{[], false};
    ghost use Rattle.surface.specs.Ring.{Ring as RingOf};
    ghost use Rattle.mesh.specs.Model.{held};
    ghost use Rattle.mesh.specs.Ahead.{rest};

    /// The half-edges that begin at the vertex `v`, in turn; there are none just where `v` is not live.
    pub fn ring(&self, v: u16) -> Ring<'_>
        ensures round { (held self.now).present v ≡ true → RingOf (held self.now) v (rest result) }
        ensures none { (held self.now).present v ≡ false → rest result ≡ [] }
    {
        let ahead = self.outgoing(v);
        Ring {
            edges: self,
            // Kept: a ring of none has no first half-edge, and the number is not read.
            first: ahead.unwrap_or(0),
            ahead,
        }
    }
}
