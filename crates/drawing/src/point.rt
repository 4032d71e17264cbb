//! Points in metres.
ghost use Rattle.drawing.specs.Points.{Quarter, Placed};

use geometry::Position;

/// Where a vertex lies, in metres.
#[derive(Clone, Copy, Default)]
pub struct Point {
    pub x: f32,
    pub y: f32,
    pub z: f32,
}

/// A quarter of `n`, exactly.
fn quarter(n: u8) -> f32
    ensures quartered { Quarter n result }
{
    (n as f32) / 4.0
}

/// A position in metres.
impl From<Position> for Point {
    ghost from_gives = { Placed };

    fn from(position: Position) -> Point {
        Point {
            x: quarter(position.x),
            y: quarter(position.y),
            z: quarter(position.z),
        }
    }
}
