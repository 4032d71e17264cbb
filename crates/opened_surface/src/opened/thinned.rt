//! Opening a gathered surface and making calls on it, in one call.
ghost use Rattle.opened_surface.specs.Thinned.{Thins};

use super::Opened;
use super::opening::{Unopened, Why, open};
use gathering::gathering::Gathering;
use gauge::Gauge;
use gauge::telling::TellingGauge;
use ledger::call::{Answer, Call};
use std::alloc::Global;

/// An opened surface after some calls, and what each of them answered.
#[derive(Drop)]
pub struct Thinned<G: Gauge> {
    pub opened: Opened<G>,
    pub answers: Vec<Answer<G::Cost>>,
}

/// Opens the gathered surface with a gauge and makes the calls on it in turn, or hands gathering and gauge back as they came.
pub fn thin<G: TellingGauge>(
    heap: Global,
    gathering: Gathering,
    gauge: G,
    calls: &[Call],
) -> Result<Thinned<G>, Unopened<G>>
    ensures outcome { Thins G.Gauge G.Cost.Ordered gathering gauge calls.now result }
{
    // Kept: a `?` would drop gathering and gauge, which are handed back.
    let Ok(mut answers) = Vec::with_capacity(heap, calls.len()) else {
        return Err(Unopened {
            gathering,
            gauge,
            why: Why::NoMemory,
        });
    };
    let mut opened = open(heap, gathering, gauge)?;
    opened.thinning.run(calls, &mut answers);
    Ok(Thinned { opened, answers })
}
