//! Tallies: what a tally kind is, and the kinds `vehicles` and `queues`.
#![tactic(auto)]

pub mod fault;
pub mod kind;
pub mod queues;
pub mod vehicles;
