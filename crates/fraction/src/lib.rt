//! Exact fractions: an amount of 64 bits over a divisor from 1 to 2,048, ranked by their value.
#![tactic(auto)]

ghost use Rattle.std.specs.Prelude.{◌≡◌, ◌/◌, Decides, MatchOption};
ghost use Rattle.std.specs.Ordering.{MatchOrdering};
ghost use Rattle.fraction.specs.Fractions.{AtMost, Below, Divides};
ghost use Rattle.fraction.specs.Ranks;
ghost use Rattle.std.proofs.Common.{rules};

use order::Ordered;
use std::cmp::Ordering;

/// An amount over a divisor. It is never reduced: 1/2 and 2/4 differ and rank equal.
#[derive(Clone, Copy)]
pub struct Fraction {
    amount: u64,
    divisor: u16,
    ghost divides: { Divides divisor },
}

impl Fraction {
    /// The amount over the divisor, where the divisor is from 1 to 2,048.
    pub fn new(amount: u64, divisor: u16) -> Option<Fraction>
        ensures { MatchOption result (Divides divisor → ⊥) (λ f. (f.amount ≡ amount) × (f.divisor ≡ divisor)) }
    {
        if divisor == 0 || divisor > 2048 {
            return None;
        }
        Some(Fraction { amount, divisor })
    }

    /// The amount as it was given.
    pub fn amount(&self) -> u64
        ensures { result ≡ self.now.amount }
    {
        self.amount
    }

    /// The divisor as it was given.
    pub fn divisor(&self) -> u16
        ensures { result ≡ self.now.divisor }
    {
        self.divisor
    }

    /// How the whole parts compare. Where they differ, the values differ so too.
    fn compare_wholes(&self, other: &Fraction) -> Ordering
        ensures { MatchOrdering result (Below self.now.amount self.now.divisor other.now.amount other.now.divisor) (self.now.amount / self.now.divisor ≡ other.now.amount / other.now.divisor) (Below other.now.amount other.now.divisor self.now.amount self.now.divisor) }
    {
        let whole = self.amount / u64::from(self.divisor);
        let other_whole = other.amount / u64::from(other.divisor);
        whole.cmp(&other_whole)
    }

    /// Whether the first of two values with one whole part is at most the second. Both products are below
    /// 2,048 × 2,048.
    fn rest_at_most(&self, other: &Fraction) -> bool
        requires { self.now.amount / self.now.divisor ≡ other.now.amount / other.now.divisor }
        ensures { Decides result (AtMost self.now.amount self.now.divisor other.now.amount other.now.divisor) }
    {
        let m = u64::from(self.divisor);
        let n = u64::from(other.divisor);
        let rest = self.amount % m;
        let other_rest = other.amount % n;
        rest * n <= other_rest * m
    }

    /// Whether the two have one value, so that each ranks at most as high as the other.
    pub fn same_rank(&self, other: &Fraction) -> bool
        ensures { Decides result (AtMost self.now.amount self.now.divisor other.now.amount other.now.divisor × AtMost other.now.amount other.now.divisor self.now.amount self.now.divisor) }
    {
        self.at_most(other) && other.at_most(self)
    }
}

/// Fractions by their value: the whole parts decide, and where they are equal the rests.
impl Ordered for Fraction {
    ghost atmost = { λ x y. AtMost x.amount x.divisor y.amount y.divisor };

    ghost total = { λ x y. Ranks.total x.amount x.divisor y.amount y.divisor };

    ghost told = { Prim.search rules };

    ghost transitive = { λ x y z h k. Ranks.transitive x.amount x.divisor y.amount y.divisor z.amount z.divisor y.divides.0 h k };

    fn at_most(&self, other: &Fraction) -> bool {
        match self.compare_wholes(other) {
            Ordering::Less => true,
            Ordering::Equal => self.rest_at_most(other),
            Ordering::Greater => false,
        }
    }
}

#[cfg(test)]
mod tests {
    use super::*;

    fn read(amount: u64, divisor: u16) -> Option<(u64, u16)> {
        let f = Fraction::new(amount, divisor)?;
        Some((f.amount(), f.divisor()))
    }

    fn at_most(a: u64, m: u16, b: u64, n: u16) -> Option<bool> {
        Some(Fraction::new(a, m)?.at_most(&Fraction::new(b, n)?))
    }

    fn same_rank(a: u64, m: u16, b: u64, n: u16) -> Option<bool> {
        Some(Fraction::new(a, m)?.same_rank(&Fraction::new(b, n)?))
    }

    #[test]
    fn divisors_are_from_1_to_2048(rt: HostRuntime) {
        assert_eq!(rt; read(7, 0), None);
        assert_eq!(rt; read(7, 1), Some((7, 1)));
        assert_eq!(rt; read(6, 2048), Some((6, 2048)));
        assert_eq!(rt; read(7, 2049), None);
    }

    #[test]
    fn values_are_compared_exactly(rt: HostRuntime) {
        assert_eq!(rt; at_most(u64::MAX - 1, 2047, u64::MAX, 2047), Some(true));
        assert_eq!(rt; at_most(u64::MAX, 2047, u64::MAX - 1, 2047), Some(false));
        assert_eq!(rt; at_most(1, 3, 683, 2048), Some(true));
        assert_eq!(rt; at_most(683, 2048, 1, 3), Some(false));
    }

    #[test]
    fn unreduced_fractions_rank_equal(rt: HostRuntime) {
        assert_eq!(rt; same_rank(1, 2, 1024, 2048), Some(true));
        assert_eq!(rt; same_rank(1, 2, 1025, 2048), Some(false));
    }
}
