//! The rules of the handoff: what a node is, and how it takes in a frame.
#![tactic(auto)]

ghost use Rattle.handoff.specs.Eight.{EightCases};

use tally::kind::Tally;

/// Carries eight worked cases of the rules, for tallies of any kind.
pub fn eight_cases<K: Tally>()
    ensures { EightCases K }
{}
