//! Collapsing a side of a mesh, and doing a collapse again.
ghost use Rattle.mesh.specs.Calls.{Collapse, Redo};

use super::Mesh;
use super::permits::CollapseRefusal;
use crate::record::Record;

impl Mesh {
    /// Collapses `u` to `w` where that is permitted, and drops what lay ahead in the log.
    pub fn collapse(&mut self, u: u16, w: u16) -> Result<(), CollapseRefusal>
        ensures outcome { Collapse self.old u w result self.new }
    {
        let e = self.permitted(u, w)?;
        self.collapse_edge(e);
        Ok(())
    }

    /// Does the next record ahead, if there is one.
    pub fn redo(&mut self) -> Option<Record>
        ensures outcome { Redo self.old result self.new }
    {
        let r = *self.log.get(self.position)?;
        let e = self.edges.half_edge(r.u, r.w)?;
        self.advance(e);
        Some(r)
    }
}
