//! A closed surface that can be thinned and brought back: directed edges, and the log of collapses.
#![tactic(auto)]

pub mod halfedges;
pub mod law;
pub mod mesh;
pub mod record;
