//! What is refused, and by which number.
ghost use Rattle.std.specs.Prelude.{◌≡◌};
ghost use Rattle.gathering.specs.Refusals.{vertex_number, triangle_number};

/// Why a vertex is not taken.
#[derive(Clone, Copy)]
pub enum VertexRefusal {
    TooManyVertices = 2,
    CoordinateAbove255 = 1,
}

/// Why a triangle is not taken.
#[derive(Clone, Copy)]
pub enum TriangleRefusal {
    TooManyTriangles = 3,
    UnknownCorner = 4,
    EqualCorners = 5,
}

impl VertexRefusal {
    pub fn number(self) -> u8
        ensures value { result ≡ vertex_number self }
    {
        self as u8
    }
}

impl TriangleRefusal {
    pub fn number(self) -> u8
        ensures value { result ≡ triangle_number self }
    {
        self as u8
    }
}
