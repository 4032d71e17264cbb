//! What surveying a gathering answers.
use crate::verdict::Counts;

/// A closed surface: its counts and its half-edges.
#[derive(Drop)]
pub struct Tables {
    pub counts: Counts,
    // by half-edge: the one that runs opposite
    pub twin: Vec<u16>,
    // by vertex: a half-edge that begins there
    pub out: Vec<u16>,
}
