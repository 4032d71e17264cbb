//! Gathering a scanned surface, vertex by vertex and triangle by triangle.
#![tactic(auto)]

pub mod gathering;
pub mod refusal;
