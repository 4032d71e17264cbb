//! A gauge by volume: a collapse costs the volume that it sweeps, over the number of triangles that it moves.
#![tactic(auto)]

ghost use Rattle.std.specs.Prelude.{◌≡◌, false, [], replicate};
ghost use Rattle.std.proofs.lemmas.List.{length-replicate};
ghost use Rattle.sweep.specs.Entries.{entries};
ghost use Rattle.sweep.specs.Exact.{ExactFraction};
ghost use Rattle.sweep.specs.Prices.{price as price_of};
ghost use Rattle.std.proofs.Common.{rules};

use crate::walk::swept;
use fraction::Fraction;
use gauge::telling::TellingGauge;
use gauge::{Gauge, NoPair, TooManyVertices, check_pair};
use mesh::mesh::Mesh;

pub mod volume;
mod walk;

/// How many vertices a surface may have.
const CAPACITY: usize = 1024;

/// The gauge. It keeps nothing for a vertex, and so knows only how many vertices were opened.
#[derive(Drop)]
pub struct Sweep {
    count: usize,
}

impl Sweep {
    /// A gauge with no surface opened.
    pub fn new() -> Sweep
        ensures none { entries result ≡ [] }
    {
        Sweep { count: 0 }
    }
}

/// On a mesh, wherever it stands on its log, the cost of a side is the exact fraction.
pub fn exact_fraction_law()
    ensures stands { ExactFraction }
{}

impl Gauge for Sweep {
    type Cost = Fraction;

    type Entry = ();

    type Setting = ();

    ghost setting = { λ s. tt };

    ghost capacity = { λ s. 1024 };

    ghost account = { entries };

    ghost blank = { tt };

    ghost sound = { λ x. Unit {0} };

    ghost opening = { λ s S P n. replicate n tt };

    ghost merged = { λ s x y. y };

    ghost parted = { λ s x y. y };

    ghost price = { λ s u w x y p q near. price_of u w q near };

    ghost amount = { λ f. f.amount };

    ghost divisor = { λ f. f.divisor };

    ghost opened_long = { λ s S P n. length-replicate n tt };

    ghost opened_sound = { Prim.search rules };

    ghost merged_sound = { Prim.search rules };

    ghost back = { Prim.search rules };

    fn open(&mut self, mesh: &Mesh) -> Result<(), TooManyVertices> {
        let vertices = mesh.positions().len();
        if vertices > CAPACITY {
            return Err(TooManyVertices);
        }
        self.count = vertices;
        Ok(())
    }

    fn cost(&self, mesh: &Mesh, u: u16, w: u16) -> Option<Fraction> {
        check_pair(self.count, u, w).ok()?;
        let edges = mesh.edges();
        let e = edges.half_edge(u, w)?;
        let (volume, number) = swept(edges, mesh.positions(), e);
        Fraction::new(volume, number)
    }

    fn merge(&mut self, u: u16, w: u16) -> Result<(), NoPair> {
        check_pair(self.count, u, w)
    }

    fn part(&mut self, u: u16, w: u16) -> Result<(), NoPair> {
        check_pair(self.count, u, w)
    }

    fn figures(cost: &Fraction) -> (u64, u64) {
        (cost.amount(), u64::from(cost.divisor()))
    }
}

/// Prices rest on the triangles.
impl TellingGauge for Sweep {
    ghost blind = { false };

    ghost unseen = { Prim.search rules };

    fn is_blind() -> bool {
        false
    }

    fn most_vertices(&self) -> usize {
        CAPACITY
    }
}
