//! The half-edges of a triangle in turn.
ghost use Rattle.std.specs.Prelude.{◌≡◌};
ghost use Rattle.surface.specs.Surface.{next, prev};

/// The next half-edge of the same triangle.
pub(super) fn following(h: u16) -> usize
    ensures value { result ≡ next h }
{
    let h = usize::from(h);
    if h % 3 == 2 { h - 2 } else { h + 1 }
}

/// The half-edge before, of the same triangle.
pub(super) fn preceding(h: u16) -> usize
    ensures value { result ≡ prev h }
{
    let h = usize::from(h);
    if h % 3 == 0 { h + 2 } else { h - 1 }
}
