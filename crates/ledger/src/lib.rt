//! The ledger of an opened surface: by its rules the opened surface, what its gauge means and the calls that are made
//! on it fix every answer, the log, the position, the triangle list and the account.
#![tactic(auto)]

pub mod call;
pub mod laws;
