//! Reading a mesh.
ghost use Rattle.std.specs.Prelude.{◌≡◌};
ghost use Rattle.mesh.specs.Model.{log as log_of};

use super::Mesh;
use crate::halfedges::HalfEdges;
use crate::record::Record;
use geometry::Position;

impl Mesh {
    /// How many records of the log are done.
    pub fn position(&self) -> usize
        ensures value { result ≡ self.now.position }
    {
        self.position
    }

    /// The records of the log, done and ahead.
    pub fn log(&self) -> &[Record]
        ensures value { result.now ≡ log_of self.now }
    {
        self.log.as_slice()
    }

    /// The positions of the vertices, by number.
    pub fn positions(&self) -> &[Position]
        ensures value { result.now ≡ self.now.positions.items }
    {
        self.positions.as_slice()
    }

    /// The half-edges of the surface as it is now.
    pub fn edges(&self) -> &HalfEdges
        ensures value { result.now ≡ self.now.edges }
    {
        &self.edges
    }
}
