//! Making the first of the permitted collapses.
ghost use Rattle.std.specs.Prelude.{◌≡◌, IfNone};
ghost use Rattle.ledger.specs.declared.call.Call.TheVariants.{Step};
ghost use Rattle.opened_surface.specs.Calls.{step_answer};
ghost use Rattle.opened_surface.specs.Found.{Found, Ready};
ghost use Rattle.opened_surface.specs.Stale.{Sized};
ghost use Rattle.opened_surface.specs.Tied.{Follows, Tied};

use super::Thinning;
use crate::draining::drain;
use gauge::telling::TellingGauge;
use mesh::mesh::Mesh;
use queue::{Key, Queue};

/// The first of the permitted collapses, if there is one. Those before it in the queue are not permitted, and lose their keys.
fn first_permitted<G: TellingGauge>(mesh: &Mesh, queue: &mut Queue<G::Cost>) -> Option<Key<G::Cost>>
    ensures found { Found G.Gauge G.Cost.Ordered mesh.now queue.old result queue.new }
{
    while let Some((h, key)) = queue.least() {
        if mesh.permitted(key.u, key.w).is_ok() {
            return Some(key);
        }
        let _ = queue.set(h, None);
    }
    None
}

impl<G: TellingGauge> Thinning<G> {
    /// Makes every key right. No vertex is stale then.
    fn clear(&mut self)
        ensures ready { Tied G.Gauge G.Cost.Ordered self.old → Ready G.Gauge G.Cost.Ordered self.new.mesh self.new.gauge self.new.queue × Sized self.new.mesh self.new.stale }
        ensures mesh { self.new.mesh ≡ self.old.mesh }
        ensures gauge { self.new.gauge ≡ self.old.gauge }
    {
        drain::<G, false>(
            &self.mesh,
            &self.gauge,
            &mut self.queue,
            &mut self.stale.repriced,
        );
        drain::<G, true>(
            &self.mesh,
            &self.gauge,
            &mut self.queue,
            &mut self.stale.reopened,
        );
    }

    /// Makes the first of the permitted collapses, if there is one, and answers it with what it cost just before.
    pub(crate) fn step(&mut self) -> Option<Key<G::Cost>>
        ensures follows { Tied G.Gauge G.Cost.Ordered self.old → Follows G.Gauge G.Cost.Ordered self.old Step (step_answer result) self.new }
        ensures unchanged { IfNone result ((self.new.mesh ≡ self.old.mesh) × (self.new.gauge ≡ self.old.gauge)) }
    {
        self.clear();
        let Key { u, w, .. } = first_permitted::<G>(&self.mesh, &mut self.queue)?;
        // Kept: the cost is the one that `perform` answers; that the key found has the same is not promised by `first_permitted`.
        let cost = self.perform(u, w).ok()?;
        Some(Key { cost, u, w })
    }
}
