//! Keys and which of two comes first.
ghost use Rattle.std.specs.Prelude.{MatchBool};
ghost use Rattle.queue.specs.Keys.{Before, NotAfter};

use order::Ordered;

/// What a candidate is ranked by: its cost, and between costs that rank equal `u` and then `w`.
#[derive(Clone, Copy, PartialEq, Eq, Debug)]
pub struct Key<C> {
    pub cost: C,
    pub u: u16,
    pub w: u16,
}

// Kept: costs may rank equal and differ, so an `Ord` of keys, which is equal just where the keys are, would be false.
/// Whether `a` comes strictly before `b`.
pub fn before<C: Ordered>(a: &Key<C>, b: &Key<C>) -> bool
    ensures { MatchBool result (Before C.Ordered a.now b.now) (NotAfter C.Ordered b.now a.now) }
{
    !b.cost.at_most(&a.cost) || (a.cost.at_most(&b.cost) && (a.u, a.w) < (b.u, b.w))
}
