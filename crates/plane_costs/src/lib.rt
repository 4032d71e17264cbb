//! What is promised, over and above, of a surface that was opened on the gauge by planes: each cost is an exact sum.
#![tactic(auto)]

ghost use Rattle.std.specs.Prelude.{IfSome, IfNone, IfOk, OnErr};
ghost use Rattle.planes.specs.Meaning.{by_planes, whole_order};
ghost use Rattle.ledger.specs.Stepped.{StepRight};
ghost use Rattle.ledger.specs.declared.call.Call.TheVariants.{Collapse, Step};
ghost use Rattle.opened_surface.specs.Calls.{collapse_answer, step_answer};
ghost use Rattle.opened_surface.specs.Parts.{mesh_of};
ghost use Rattle.opened_surface.specs.Promise.{Called, Untouched};
ghost use Rattle.opened_surface.specs.Tied.{book_of};
ghost use Rattle.plane_costs.specs.ExactCost.{ExactCost, CostNow};

use crate::coordinates::look_over;
use gauge::Gauge;
use mesh::mesh::permits::CollapseRefusal;
use opened_surface::opened::Opened;
use planes::planes::Planes;
use queue::Key;

pub mod after;
mod coordinates;

/// What the collapse of `u` to `w` costs now, if (`u`, `w`) is a side: an exact sum.
pub fn exact_cost(opened: &Opened<Planes>, u: u16, w: u16) -> Option<u64>
    ensures exact { CostNow (mesh_of opened.now) u w result }
{
    look_over(opened);
    opened.cost(u, w)
}

/// Collapses `u` to `w` where that is permitted, and answers what it cost just before.
pub fn exact_collapse(opened: &mut Opened<Planes>, u: u16, w: u16) -> Result<u64, CollapseRefusal>
    ensures called { Called by_planes whole_order opened.old (Collapse u w) (collapse_answer result) opened.new }
    ensures exact { IfOk result (λ k. ExactCost (book_of (mesh_of opened.old)) u w k) }
    ensures refused { OnErr result (Untouched opened.old opened.new) }
{
    look_over(opened);
    opened.collapse(u, w)
}

/// Makes the cheapest of the permitted collapses, if there is one, and answers it with what it cost just before.
pub fn exact_step(opened: &mut Opened<Planes>) -> Option<Key<u64>>
    ensures called { Called by_planes whole_order opened.old Step (step_answer result) opened.new }
    ensures first { StepRight by_planes whole_order tt (book_of (mesh_of opened.old)) (step_answer result) }
    ensures exact { IfSome result (λ k. ExactCost (book_of (mesh_of opened.old)) k.u k.w k.cost) }
    ensures refused { IfNone result (Untouched opened.old opened.new) }
{
    look_over(opened);
    opened.step()
}
