//! An opened surface that no call changes.
use crate::gauges::Gauge;
use gathering::gathering::Gathering;
use judging::verdict::Counts;

/// What was gathered and judged, in a session without calls. Neither half-edges nor keys are made of it, since nothing would ask for them.
#[derive(Drop)]
pub struct Still {
    pub gathering: Gathering,
    pub counts: Counts,
    pub gauge: Gauge,
}
