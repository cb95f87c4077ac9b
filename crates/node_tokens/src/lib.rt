//! The steps of taking in a frame that drop tokens and make one.
#![tactic(auto)]

pub mod drop;
pub mod lookup;
