//! A session: reads commands from bytes, obeys them on a gathering and then on the opened surface, and writes the lines of the answer. A const
//! parameter says whether it takes the commands that make calls on the opened surface.
#![tactic(auto)]

mod calling;
mod command;
mod draft;
mod gauges;
mod hull;
pub mod input;
pub mod law;
mod lines;
mod refusal;
mod reply;
pub mod run;
mod state;
mod still;
#[cfg(test)]
mod tests;
