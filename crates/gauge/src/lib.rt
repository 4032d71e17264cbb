//! Gauges: what puts a cost on a collapse.
#![tactic(auto)]

ghost use Rattle.std.specs.Prelude.{◌≡◌, ℕ, ◌<◌, ◌≤◌, List, length, Option, MatchOption, MatchResult, slice_index_or};
ghost use Rattle.surface.specs.Surface.{Surface, Side};
ghost use Rattle.surface.specs.Geometry.{Vector};
ghost use Rattle.mesh.specs.Model.{surface as surface_of, points as points_of};
ghost use Rattle.gauge.specs.Near.{Placed, near};
ghost use Rattle.gauge.specs.Numbers.{too_many_vertices_number, no_pair_number};
ghost use Rattle.gauge.specs.Accounts.{changed, TwoOf, NotTwoOf};

use mesh::mesh::Mesh;
use order::Ordered;

pub mod telling;

/// There are more vertices than the gauge takes.
#[derive(Clone, Copy)]
pub struct TooManyVertices;

/// The two are not two opened vertices.
#[derive(Clone, Copy)]
pub struct NoPair;

impl TooManyVertices {
    /// The number of the refusal.
    pub fn number(self) -> u8
        ensures value { result ≡ too_many_vertices_number }
    {
        12
    }
}

impl NoPair {
    /// The number of the refusal.
    pub fn number(self) -> u8
        ensures value { result ≡ no_pair_number }
    {
        13
    }
}

/// Refuses what are not two of `count` vertices.
pub fn check_pair(count: usize, u: u16, w: u16) -> Result<(), NoPair>
    ensures pair { MatchResult result (λ _. TwoOf count u w) (λ _. NotTwoOf count u w) }
{
    if u != w && usize::from(u) < count && usize::from(w) < count {
        Ok(())
    } else {
        Err(NoPair)
    }
}

/// What a gauge means: a setting and a capacity that are fixed, and an account with one entry for each opened vertex.
pub trait Gauge {
    type Cost: Ordered + Copy;

    type Entry;

    type Setting;

    ghost setting: { Self → Self.Setting };

    ghost capacity: { Self → ℕ };

    /// The entries by vertex; none before opening.
    ghost account: { Self → List Self.Entry };

    /// Only the default of reads.
    ghost blank: { Self.Entry };

    /// What entries keep to from opening on.
    ghost sound: { Self.Entry → Type 0 };

    /// The account of a surface with its points and its number of vertices, as it is opened.
    ghost opening: { Self.Setting → Surface → (ℕ → Vector) → ℕ → List Self.Entry };

    /// The entry of w after u is merged into w, from those of u and of w.
    ghost merged: { Self.Setting → Self.Entry → Self.Entry → Self.Entry };

    /// The entry of w after w is parted from u again, from those of u and of w.
    ghost parted: { Self.Setting → Self.Entry → Self.Entry → Self.Entry };

    /// The cost of collapsing u to w, from u, w, their entries, their points, and the live triangles at them.
    ghost price: { Self.Setting → ℕ → ℕ → Self.Entry → Self.Entry → Vector → Vector → (ℕ → Option Placed) → Self.Cost };

    /// The figures of a cost.
    ghost amount: { Self.Cost → ℕ };

    ghost divisor: { Self.Cost → ℕ };

    /// Opens the account for a surface.
    fn open(&mut self, mesh: &Mesh) -> Result<(), TooManyVertices>
        ensures opened { MatchResult result (λ _. (length mesh.now.positions.items ≤ capacity self.old) × (account self.new ≡ opening (setting self.old) (surface_of mesh.now) (points_of mesh.now) (length mesh.now.positions.items))) (λ _. (capacity self.old < length mesh.now.positions.items) × (self.new ≡ self.old)) }
        ensures setting { setting self.new ≡ setting self.old }
        ensures capacity { capacity self.new ≡ capacity self.old };

    /// The cost of collapsing u to w, where (u, w) is a side and both have entries.
    fn cost(&self, mesh: &Mesh, u: u16, w: u16) -> Option<Self::Cost>
        ensures priced { MatchOption result (Side (surface_of mesh.now) u w → u < length (account self.now) → w < length (account self.now) → ⊥) (λ k. Side (surface_of mesh.now) u w × (u < length (account self.now)) × (w < length (account self.now)) × (k ≡ price (setting self.now) u w (slice_index_or (account self.now) u blank) (slice_index_or (account self.now) w blank) (points_of mesh.now u) (points_of mesh.now w) (near (surface_of mesh.now) (points_of mesh.now) u w))) };

    /// Merges the entry of u into that of w.
    fn merge(&mut self, u: u16, w: u16) -> Result<(), NoPair>
        ensures merged { MatchResult result (λ _. TwoOf (length (account self.old)) u w × (account self.new ≡ changed (merged (setting self.old)) blank u w (account self.old))) (λ _. NotTwoOf (length (account self.old)) u w × (self.new ≡ self.old)) }
        ensures setting { setting self.new ≡ setting self.old }
        ensures capacity { capacity self.new ≡ capacity self.old };

    /// Parts the entry of w from that of u, after a merge of u into w.
    fn part(&mut self, u: u16, w: u16) -> Result<(), NoPair>
        ensures parted { MatchResult result (λ _. TwoOf (length (account self.old)) u w × (account self.new ≡ changed (parted (setting self.old)) blank u w (account self.old))) (λ _. NotTwoOf (length (account self.old)) u w × (self.new ≡ self.old)) }
        ensures setting { setting self.new ≡ setting self.old }
        ensures capacity { capacity self.new ≡ capacity self.old };

    /// The figures of a cost, amount and divisor.
    fn figures(cost: &Self::Cost) -> (u64, u64)
        ensures figures { (result.0 ≡ amount cost.now) × (result.1 ≡ divisor cost.now) };

    ghost opened_long: { (s : Self.Setting) (S : Surface) (P : ℕ → Vector) (n : ℕ) → length (opening s S P n) ≡ n };

    ghost opened_sound: { (s : Self.Setting) (S : Surface) (P : ℕ → Vector) (n k : ℕ) → k < n → sound (slice_index_or (opening s S P n) k blank) };

    ghost merged_sound: { (s : Self.Setting) (x y : Self.Entry) → sound x → sound y → sound (merged s x y) };

    ghost back: { (s : Self.Setting) (x y : Self.Entry) → sound x → sound y → parted s x (merged s x y) ≡ y };
}
