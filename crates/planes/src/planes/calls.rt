//! The calls on the gauge.
ghost use Rattle.std.specs.Prelude.{◌≡◌, ℕ, ◌+◌, ◌*◌, ◌<◌, true, [], length, IfOk, MatchResult, slice_index_or, slice_set};
ghost use Rattle.mesh.specs.Model.{surface as surface_of, points as points_of};
ghost use Rattle.geometry.specs.Values.{vector_of};
ghost use Rattle.gauge.specs.Accounts.{TwoOf, NotTwoOf};
ghost use Rattle.planes.specs.Quadrics.{zero, plus, minus, Sound};
ghost use Rattle.planes.specs.Accounts.{opening as opening_of, Gathered, price as price_of, gathered};
ghost use Rattle.planes.specs.Model.{capacity as capacity_of, account as account_of};
ghost use Rattle.std.proofs.lemmas.List.FromFn.{length-map-range_with_len};
ghost use Rattle.planes.specs.AccountsLemmas.{opening_sound, plus_sound};
ghost use Rattle.std.proofs.Common.{rules};

use super::Planes;
use crate::quadric::{Quadric, quadric_of};
use gauge::telling::TellingGauge;
use gauge::{Gauge, NoPair, TooManyVertices, check_pair};
use geometry::Position;
use mesh::mesh::Mesh;
use std::alloc::{AllocError, Global};

impl Planes {
    /// A gauge that takes `capacity` vertices, with none opened. It never allocates again.
    pub fn new(heap: Global, capacity: usize) -> Result<Planes, AllocError>
        ensures made { IfOk result (λ g. (capacity_of g ≡ capacity) × (account_of g ≡ [])) }
    {
        let table = Vec::with_capacity(heap, capacity)?;
        Ok(Planes { table, capacity })
    }

    /// The entries of `u` and of `w`, if these are two opened vertices.
    fn two_entries(&self, u: u16, w: u16) -> Result<(Quadric, Quadric), NoPair>
        ensures { MatchResult result (λ r. TwoOf (length (account_of self.now)) u w × (r.0 ≡ slice_index_or (account_of self.now) u zero) × (r.1 ≡ slice_index_or (account_of self.now) w zero)) (λ _. NotTwoOf (length (account_of self.now)) u w) }
    {
        check_pair(self.table.len(), u, w)?;
        Ok((self.table[usize::from(u)], self.table[usize::from(w)]))
    }
}

impl Gauge for Planes {
    type Cost = u64;

    type Entry = Quadric;

    type Setting = ();

    ghost setting = { λ _. tt };

    ghost capacity = { capacity_of };

    ghost account = { account_of };

    ghost blank = { zero };

    ghost sound = { Sound };

    ghost opening = { λ _ S P n. opening_of S P n };

    ghost merged = { λ _ x y. plus y x };

    ghost parted = { λ _ x y. minus y x };

    ghost price = { λ _ _ _ x y _ p _. price_of x y p };

    ghost amount = { λ k. k };

    ghost divisor = { λ _. 1 };

    ghost opened_long = { λ s S P n. length-map-range_with_len (λ c. gathered S P c 6144) 0 n };

    ghost opened_sound = { λ s S P n k l. opening_sound S P n k l };

    ghost merged_sound = { λ s x y p q. plus_sound y x };

    ghost back = { unfold plus minus in λ s x y p q. Prim.search rules };

    fn open(&mut self, mesh: &Mesh) -> Result<(), TooManyVertices> {
        let n = mesh.positions().len();
        if self.capacity < n {
            return Err(TooManyVertices);
        }
        self.table.clear();
        self.table.resize(n, Quadric::default()).unwrap();
        gather(&mut self.table, mesh);
        Ok(())
    }

    fn cost(&self, mesh: &Mesh, u: u16, w: u16) -> Option<u64> {
        let from = self.table.get(usize::from(u))?;
        let to = self.table.get(usize::from(w))?;
        mesh.edges().half_edge(u, w)?;
        let p = position_of(mesh, w);
        Some(from.at(p).wrapping_add(to.at(p)))
    }

    fn merge(&mut self, u: u16, w: u16) -> Result<(), NoPair> {
        let (added, entry) = self.two_entries(u, w)?;
        self.table[usize::from(w)] = entry + added;
        Ok(())
    }

    fn part(&mut self, u: u16, w: u16) -> Result<(), NoPair> {
        let (taken, entry) = self.two_entries(u, w)?;
        self.table[usize::from(w)] = entry - taken;
        Ok(())
    }

    fn figures(cost: &u64) -> (u64, u64) {
        (*cost, 1)
    }
}

/// Adds to each entry the quadrics of the live triangles at its vertex.
fn gather(table: &mut [Quadric], mesh: &Mesh)
    ensures gathered { Gathered (surface_of mesh.now) (points_of mesh.now) 0 table.old → Gathered (surface_of mesh.now) (points_of mesh.now) 6144 table.new }
{
    for t in 0..2048 {
        add_triangle(table, mesh, t);
    }
}

/// Adds the quadric of triangle `t` to the entries of its corners, if it is live.
fn add_triangle(table: &mut [Quadric], mesh: &Mesh, t: u16)
    requires few { t < 2048 }
    ensures gathered { Gathered (surface_of mesh.now) (points_of mesh.now) (3 * t) table.old → Gathered (surface_of mesh.now) (points_of mesh.now) (3 * t + 3) table.new }
{
    let h = 3 * t;
    let edges = mesh.edges();
    if !edges.is_live(h) {
        return;
    }
    let a = edges.start(h);
    let b = edges.end(h);
    let c = edges.third(h);
    let q = quadric_of(
        position_of(mesh, a),
        position_of(mesh, b),
        position_of(mesh, c),
    );
    add(table, a, q);
    add(table, b, q);
    add(table, c, q);
}

/// Adds `q` to the entry of the vertex `v`, if there is one.
fn add(table: &mut [Quadric], v: u16, q: Quadric)
    ensures added { table.new ≡ slice_set table.old v (plus (slice_index_or table.old v zero) q) }
{
    let i = usize::from(v);
    // Kept: what a slice holds after a write through its `get_mut` is not known to a proof.
    if i < table.len() {
        table[i] = table[i] + q;
    }
}

// Kept: a vertex that there is not reads as the origin, as the definitions have it.
/// Where the vertex `v` lies; the origin, if there is no such vertex.
fn position_of(mesh: &Mesh, v: u16) -> Position
    ensures point { vector_of result ≡ points_of mesh.now v }
{
    mesh.positions()
        .get(usize::from(v))
        .copied()
        .unwrap_or(Position { x: 0, y: 0, z: 0 })
}

/// Prices rest on entries and points alone.
impl TellingGauge for Planes {
    ghost blind = { true };

    ghost unseen = { Prim.search rules };

    fn is_blind() -> bool {
        true
    }

    fn most_vertices(&self) -> usize {
        self.capacity
    }
}
