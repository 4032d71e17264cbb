//! Worked examples, proved of the definitions that the calls are held to.
#![tactic(auto)]

ghost use Rattle.examples.specs.Examples.{Examples};

/// The examples hold.
pub fn examples_hold()
    ensures hold { Examples }
{}
