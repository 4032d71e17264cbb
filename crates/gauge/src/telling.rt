//! Gauges that tell more of themselves.
ghost use Rattle.std.specs.Prelude.{◌≡◌, ℕ, Bool, true, Option};
ghost use Rattle.surface.specs.Geometry.{Vector};
ghost use Rattle.gauge.specs.Near.{Placed};

use crate::Gauge;

/// A gauge that tells how many vertices it takes, and whether its prices rest on the triangles.
pub trait TellingGauge: Gauge {
    /// Whether a price rests on setting, entries and points alone, whatever the triangles are. A gauge need not say so.
    ghost blind: { Bool };

    /// Whether the gauge says that its prices do not rest on the triangles.
    fn is_blind() -> bool
        ensures value { result ≡ blind };

    /// How many vertices the gauge takes.
    fn most_vertices(&self) -> usize
        ensures value { result ≡ Self.capacity self.now };

    ghost unseen: { blind ≡ true → (s : Self.Setting) (u w : ℕ) (x y : Self.Entry) (p q : Vector) (n k : ℕ → Option Placed) → Self.price s u w x y p q n ≡ Self.price s u w x y p q k };
}
