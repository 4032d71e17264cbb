//! Orders of costs: any two costs can be ranked, and nothing more is known of them. Two costs may rank
//! equal and differ.
#![tactic(auto)]

ghost use Rattle.std.specs.Prelude.{◌≤◌, ◌⊎◌, Decides};
ghost use Rattle.std.proofs.Common.{rules};

/// Values that are ranked by an order, total and transitive.
// Kept: costs may rank equal and differ, so `Ord`, by which what ranks equal is equal, would be false of them.
pub trait Ordered {
    /// The first ranks at most as high as the second.
    ghost atmost: { Self → Self → Type 0 };

    /// Whether `self` ranks at most as high as `other`.
    fn at_most(&self, other: &Self) -> bool
        ensures { Decides result (atmost self.now other.now) };

    ghost total: { (x y : Self) → atmost x y ⊎ atmost y x };

    /// The order is told, as `at_most` tells it.
    ghost told: { (x y : Self) → atmost x y ⊎ (atmost x y → ⊥) };

    ghost transitive: { (x y z : Self) → atmost x y → atmost y z → atmost x z };
}

/// Whole numbers by their size.
impl Ordered for u64 {
    ghost atmost = { λ x y. x ≤ y };

    ghost total = { Prim.search rules };

    ghost told = { Prim.search rules };

    ghost transitive = { Prim.search rules };

    fn at_most(&self, other: &u64) -> bool {
        *self <= *other
    }
}
