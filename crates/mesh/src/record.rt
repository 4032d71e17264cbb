//! One collapse of the log.

/// The collapse of vertex `u` to vertex `w`.
// Kept: calls take the two as two numbers, since any two may be asked for and a record is only of a collapse that was permitted.
#[derive(Clone, Copy)]
pub struct Record {
    pub u: u16,
    pub w: u16,
}
