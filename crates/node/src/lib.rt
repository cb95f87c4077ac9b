//! A node's numbers and slots, and the steps of taking in a frame that change them alone.
#![tactic(auto)]

pub mod numbers;
pub mod slots;
