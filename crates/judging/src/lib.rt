//! Judging whether a gathered surface is closed and has no zero normal.
#![tactic(auto)]

pub mod judge;
pub mod survey;
pub mod tables;
pub mod verdict;
