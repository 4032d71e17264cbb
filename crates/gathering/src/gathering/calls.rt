//! The calls on a gathering.
ghost use Rattle.std.specs.Prelude.{◌≡◌, [], IfOk};
ghost use Rattle.gathering.specs.Model.{positions as positions_of, corners as corners_of};
ghost use Rattle.gathering.specs.Gathered.{AddedVertex, AddedTriangle};

use super::Gathering;
use crate::refusal::{TriangleRefusal, VertexRefusal};
use geometry::Position;
use std::alloc::{AllocError, Global};

impl Gathering {
    /// The most vertices that a surface may have.
    pub const MOST_VERTICES: usize = 1024;
    /// The most triangles that a surface may have.
    pub const MOST_TRIANGLES: usize = 2048;

    /// A gathering with nothing in it, and room for all that it may ever hold.
    pub fn new(heap: Global) -> Result<Gathering, AllocError>
        ensures empty { IfOk result (λ g. (positions_of g ≡ []) × (corners_of g ≡ [])) }
    {
        let positions = Vec::with_capacity(heap, Self::MOST_VERTICES)?;
        let corners = Vec::with_capacity(heap, 3 * Self::MOST_TRIANGLES)?;
        Ok(Gathering { positions, corners })
    }

    /// One vertex more.
    pub fn vertex(&mut self, x: u16, y: u16, z: u16) -> Result<(), VertexRefusal>
        ensures outcome { AddedVertex self.old x y z result self.new }
    {
        if self.positions.len() >= Self::MOST_VERTICES {
            return Err(VertexRefusal::TooManyVertices);
        }
        // Kept: the three coordinates have one refusal between them; a u8::try_from of each would map its own error to that one.
        if x > 255 || y > 255 || z > 255 {
            return Err(VertexRefusal::CoordinateAbove255);
        }
        self.positions.push_reserved(Position {
            x: x as u8,
            y: y as u8,
            z: z as u8,
        });
        Ok(())
    }

    /// One triangle more.
    pub fn triangle(&mut self, a: u16, b: u16, c: u16) -> Result<(), TriangleRefusal>
        ensures outcome { AddedTriangle self.old a b c result self.new }
    {
        if self.corners.len() >= 3 * Self::MOST_TRIANGLES {
            return Err(TriangleRefusal::TooManyTriangles);
        }
        let n = self.positions.len();
        if a as usize >= n || b as usize >= n || c as usize >= n {
            return Err(TriangleRefusal::UnknownCorner);
        }
        if a == b || b == c || c == a {
            return Err(TriangleRefusal::EqualCorners);
        }
        self.corners.push_reserved(a);
        self.corners.push_reserved(b);
        self.corners.push_reserved(c);
        Ok(())
    }

    /// The positions of the vertices, by number.
    pub fn positions(&self) -> &[Position]
        ensures value { result.now ≡ positions_of self.now }
    {
        self.positions.as_slice()
    }

    /// The corners of the triangles, three each, one triangle after the other.
    pub fn corners(&self) -> &[u16]
        ensures value { result.now ≡ corners_of self.now }
    {
        self.corners.as_slice()
    }

    /// Takes the gathering apart, into its positions and its corners.
    pub fn into_parts(self) -> (Vec<Position>, Vec<u16>)
        ensures positions { result.0 ≡ self.positions }
        ensures corners { result.1 ≡ self.corners }
    {
        let Gathering { positions, corners } = self;
        (positions, corners)
    }
}
