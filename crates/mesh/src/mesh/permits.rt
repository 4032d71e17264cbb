//! Which collapses are permitted.
ghost use Rattle.std.specs.Prelude.{◌≡◌};
ghost use Rattle.mesh.specs.Model.{surface, points};
ghost use Rattle.mesh.specs.Refusals.{refusal_number, Permit};

use super::Mesh;

/// Why a vertex is not collapsed to another.
#[derive(Clone, Copy)]
pub enum CollapseRefusal {
    /// They are not joined by a side.
    NoSide = 13,
    /// The outcome is no closed surface.
    NotClosed = 14,
    /// A triangle that is moved would be folded over.
    Folds = 15,
}

impl CollapseRefusal {
    /// The number of the refusal.
    pub fn number(self) -> u8
        ensures value { result ≡ refusal_number self }
    {
        self as u8
    }
}

impl Mesh {
    /// The half-edge from `u` to `w`, if `u` may be collapsed to `w`; else the first rule that this would break.
    pub fn permitted(&self, u: u16, w: u16) -> Result<u16, CollapseRefusal>
        ensures permit { Permit (surface self.now) (points self.now) u w result }
    {
        let e = self.edges.half_edge(u, w).ok_or(CollapseRefusal::NoSide)?;
        if !self.edges.link_holds(e) {
            return Err(CollapseRefusal::NotClosed);
        }
        if !self.edges.upright(&self.positions, e) {
            return Err(CollapseRefusal::Folds);
        }
        Ok(e)
    }
}
