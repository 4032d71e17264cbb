//! The calls on an opened surface. None of them but `run` is given memory to take.
ghost use Rattle.std.specs.Prelude.{◌≡◌, IfNone, MatchResult, OnErr};
ghost use Rattle.ledger.specs.Stepped.{StepRight};
ghost use Rattle.ledger.specs.declared.call.Call.TheVariants.{Collapse, Step, Split, Redo, Go};
ghost use Rattle.opened_surface.specs.Calls.{collapse_answer, step_answer, split_answer, redo_answer, go_answer};
ghost use Rattle.opened_surface.specs.Parts.{gauge_of, mesh_of};
ghost use Rattle.opened_surface.specs.Promise.{Called, Ran, Untouched};
ghost use Rattle.opened_surface.specs.Tied.{book_of};

use super::Opened;
use gauge::telling::TellingGauge;
use ledger::call::{Answer, Call};
use mesh::mesh::permits::CollapseRefusal;
use queue::Key;
use std::alloc::{AllocError, Global};

impl<G: TellingGauge> Opened<G> {
    /// Collapses `u` to `w` where that is permitted, and answers what it cost just before.
    pub fn collapse(&mut self, u: u16, w: u16) -> Result<G::Cost, CollapseRefusal>
        ensures called { Called G.Gauge G.Cost.Ordered self.old (Collapse u w) (collapse_answer result) self.new }
        ensures refused { OnErr result (Untouched self.old self.new) }
    {
        self.thinning.collapse(u, w)
    }

    /// Makes the cheapest of the permitted collapses, if there is one: of those that rank equal the one with the least `u`,
    /// and then the least `w`.
    pub fn step(&mut self) -> Option<Key<G::Cost>>
        ensures called { Called G.Gauge G.Cost.Ordered self.old Step (step_answer result) self.new }
        ensures first { StepRight G.Gauge G.Cost.Ordered (G.setting (gauge_of self.old)) (book_of (mesh_of self.old)) (step_answer result) }
        ensures refused { IfNone result (Untouched self.old self.new) }
    {
        self.thinning.step()
    }

    /// Takes the last collapse back, if one is done, and answers the new position.
    pub fn split(&mut self) -> Option<usize>
        ensures called { Called G.Gauge G.Cost.Ordered self.old Split (split_answer result) self.new }
        ensures refused { IfNone result (Untouched self.old self.new) }
    {
        self.thinning.split()
    }

    /// Does the next collapse of the log again, if one lies ahead, and answers the new position.
    pub fn redo(&mut self) -> Option<usize>
        ensures called { Called G.Gauge G.Cost.Ordered self.old Redo (redo_answer result) self.new }
        ensures refused { IfNone result (Untouched self.old self.new) }
    {
        self.thinning.redo()
    }

    /// Goes to the position `target`, if the log has it, and answers how many moves that took.
    pub fn go(&mut self, target: usize) -> Option<usize>
        ensures called { Called G.Gauge G.Cost.Ordered self.old (Go target) (go_answer result) self.new }
        ensures refused { IfNone result (Untouched self.old self.new) }
    {
        self.thinning.go(target)
    }

    /// Makes the calls in turn. Memory is taken for the answers alone, before the first call; where there is none, nothing
    /// changes.
    pub fn run(&mut self, calls: &[Call], heap: Global) -> Result<Vec<Answer<G::Cost>>, AllocError>
        ensures ran { MatchResult result (λ v. Ran G.Gauge G.Cost.Ordered self.old calls.now v.items self.new) (λ _. self.new ≡ self.old) }
    {
        let mut answers = Vec::with_capacity(heap, calls.len())?;
        self.thinning.run(calls, &mut answers);
        Ok(answers)
    }
}
