//! Going to a position of the log.
ghost use Rattle.std.specs.Prelude.{◌≡◌, ◌+◌, ◌-◌, ◌≤◌, length, IfNone};
ghost use Rattle.mesh.specs.Model.{log as log_of};
ghost use Rattle.ledger.specs.declared.call.Call.TheVariants.{Go};
ghost use Rattle.opened_surface.specs.Calls.{go_answer};
ghost use Rattle.opened_surface.specs.Tied.{Follows, Placed, Tied};

use super::Thinning;
use gauge::telling::TellingGauge;

// Kept: `go_back` and `go_on` differ in the move and in what each promises, and each is one loop of one line.
impl<G: TellingGauge> Thinning<G> {
    /// Takes the last `count` collapses back.
    fn go_back(&mut self, count: usize)
        ensures placed { Tied G.Gauge G.Cost.Ordered self.old → count ≤ self.old.mesh.position → Placed G.Gauge G.Cost.Ordered self.old (self.old.mesh.position - count) self.new }
    {
        for _ in 0..count {
            self.split();
        }
    }

    /// Does the next `count` collapses again.
    fn go_on(&mut self, count: usize)
        ensures placed { Tied G.Gauge G.Cost.Ordered self.old → self.old.mesh.position + count ≤ length (log_of self.old.mesh) → Placed G.Gauge G.Cost.Ordered self.old (self.old.mesh.position + count) self.new }
    {
        for _ in 0..count {
            self.redo();
        }
    }

    /// Goes to the position `target`, if the log has it, and answers how many moves that took.
    pub(crate) fn go(&mut self, target: usize) -> Option<usize>
        ensures follows { Tied G.Gauge G.Cost.Ordered self.old → Follows G.Gauge G.Cost.Ordered self.old (Go target) (go_answer result) self.new }
        ensures unchanged { IfNone result ((self.new.mesh ≡ self.old.mesh) × (self.new.gauge ≡ self.old.gauge)) }
    {
        if target > self.mesh.log().len() {
            return None;
        }
        let position = self.mesh.position();
        let count = position.abs_diff(target);
        if target < position {
            self.go_back(count);
        } else {
            self.go_on(count);
        }
        Some(count)
    }
}
