//! Lines: what a line is, and two of them, the queue and the board.
#![tactic(auto)]

pub mod board;
pub mod frames;
mod held;
pub mod interface;
pub mod orders;
pub mod queue;
