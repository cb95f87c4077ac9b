//! Observed queue lengths: reading them from text, a byte at a time, and telling their tally.
#![tactic(auto)]

pub mod figures;
pub mod line;
pub mod source;
