//! Calls by the ledger, one after another.
ghost use Rattle.std.specs.Prelude.{◌≡◌, ◌≤◌, [], length, vec_capacity};
ghost use Rattle.opened_surface.specs.Calls.{answer_of};
ghost use Rattle.opened_surface.specs.Tied.{Follows, FollowsAll, Tied};

use super::Thinning;
use gauge::telling::TellingGauge;
use ledger::call::{Answer, Call, Refusal};
use queue::Key;

impl<G: TellingGauge> Thinning<G> {
    /// Makes one call, and answers what it made or why it is refused.
    fn outcome(&mut self, call: &Call) -> Result<Answer<G::Cost>, Refusal>
        ensures follows { Tied G.Gauge G.Cost.Ordered self.old → Follows G.Gauge G.Cost.Ordered self.old call.now (answer_of result) self.new }
    {
        match call {
            Call::Collapse(u, w) => Ok(Answer::Collapsed(self.collapse(*u, *w)?)),
            Call::Step => {
                let Key { cost, u, w } = self.step().ok_or(Refusal::NonePermitted)?;
                Ok(Answer::Stepped { u, w, cost })
            }
            Call::Split => Ok(Answer::Split(self.split().ok_or(Refusal::NothingDone)?)),
            Call::Redo => Ok(Answer::Redone(self.redo().ok_or(Refusal::NothingAhead)?)),
            Call::Go(target) => Ok(Answer::Went(self.go(*target).ok_or(Refusal::BeyondLog)?)),
        }
    }

    /// Makes one call.
    fn make(&mut self, call: &Call) -> Answer<G::Cost>
        ensures follows { Tied G.Gauge G.Cost.Ordered self.old → Follows G.Gauge G.Cost.Ordered self.old call.now result self.new }
    {
        self.outcome(call)
            .unwrap_or_else(|refusal| Answer::Refused(refusal))
    }

    /// Makes the calls in turn, and puts their answers into a list that has room for them.
    pub(crate) fn run(&mut self, calls: &[Call], answers: &mut Vec<Answer<G::Cost>>)
        requires empty { answers.old.items ≡ [] }
        requires room { length calls.now ≤ vec_capacity answers.old }
        ensures follows { Tied G.Gauge G.Cost.Ordered self.old → FollowsAll G.Gauge G.Cost.Ordered self.old calls.now answers.new.items self.new }
    {
        for call in calls {
            answers.push_reserved(self.make(call));
        }
    }
}
