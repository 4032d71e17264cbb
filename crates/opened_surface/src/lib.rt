//! Thinning a surface along a queue of its collapses by cost, and taking every collapse back.
#![tactic(auto)]

mod draining;
mod keys;
mod mending;
pub mod opened;
mod stale;
mod thinning;
