//! Opening a gathered surface on the gauge by planes, making calls on it, and asking for a cost, in one call.
ghost use Rattle.plane_costs.specs.After.{CostsAfter};

use crate::coordinates::look_over;
use crate::exact_cost;
use gathering::gathering::Gathering;
use ledger::call::Call;
use opened_surface::opened::opening::Unopened;
use opened_surface::opened::thinned::{Thinned, thin};
use planes::planes::Planes;
use std::alloc::Global;

/// An opened surface after some calls, and what a collapse of it costs then, if it has a cost.
#[derive(Drop)]
pub struct Costed {
    pub thinned: Thinned<Planes>,
    pub cost: Option<u64>,
}

/// Opens the gathered surface, makes the calls on it in turn, and answers what the collapse of `u` to `w` costs then; or
/// hands gathering and gauge back as they came.
pub fn exact_after(
    heap: Global,
    gathering: Gathering,
    gauge: Planes,
    calls: &[Call],
    u: u16,
    w: u16,
) -> Result<Costed, Unopened<Planes>>
    ensures outcome { CostsAfter gathering gauge calls.now u w result }
{
    let thinned = thin(heap, gathering, gauge, calls)?;
    look_over(&thinned.opened);
    let cost = exact_cost(&thinned.opened, u, w);
    Ok(Costed { thinned, cost })
}
