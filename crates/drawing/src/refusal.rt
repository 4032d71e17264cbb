//! What is refused, and by which number.
ghost use Rattle.std.specs.Prelude.{◌≡◌};
ghost use Rattle.drawing.specs.Refusals.{too_short_number};

/// A lent list has no room for the surface.
#[derive(Clone, Copy)]
pub struct TooShort;

impl TooShort {
    pub fn number(self) -> u8
        ensures value { result ≡ too_short_number self }
    {
        20
    }
}
