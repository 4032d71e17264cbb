//! Forward and back along the log of a mesh.
ghost use Rattle.std.specs.Prelude.{◌≡◌, ◌/◌, ◌<◌, true, vec_len};
ghost use Rattle.surface.specs.Permitted.{Permitted};
ghost use Rattle.mesh.specs.Model.{held, points};
ghost use Rattle.mesh.specs.Moves.{record_of, Noted, Advanced, Collapsed, Split};
ghost use Rattle.mesh.specs.Stages.{record_at};

use super::Mesh;
use crate::record::Record;

impl Mesh {
    /// Puts a permitted collapse at the position, in the place of all that lies ahead.
    fn note(&mut self, r: Record)
        requires permitted { ∥ Permitted (held self.old.edges) (points self.old) r.u r.w ∥₁ }
        ensures noted { Noted self.old r self.new }
    {
        self.log.truncate(self.position);
        self.log.push_reserved(r);
    }

    /// Does the record at the position again; `e` is its half-edge.
    pub(crate) fn advance(&mut self, e: u16)
        requires ahead { self.old.position < vec_len self.old.log }
        requires live { (held self.old.edges).alive (e / 3) ≡ true }
        requires same { record_of self.old.edges e ≡ record_at self.old.log.items self.old.position }
        ensures advanced { Advanced self.old self.new }
    {
        self.edges.join(e);
        self.position += 1;
    }

    /// Collapses the half-edge `e`, and drops what lay ahead in the log.
    pub(crate) fn collapse_edge(&mut self, e: u16)
        requires live { (held self.old.edges).alive (e / 3) ≡ true }
        requires permitted { ∥ Permitted (held self.old.edges) (points self.old) (record_of self.old.edges e).u (record_of self.old.edges e).w ∥₁ }
        ensures collapsed { Collapsed self.old e self.new }
    {
        let r = self.edges.record_of(e);
        self.note(r);
        self.advance(e);
    }

    /// Takes the last collapse back, if one is done.
    pub fn split(&mut self) -> Option<Record>
        ensures outcome { Split self.old result self.new }
    {
        let before = self.position.checked_sub(1)?;
        let r = self.log[before];
        self.edges.part(r.u);
        self.position = before;
        Some(r)
    }
}
