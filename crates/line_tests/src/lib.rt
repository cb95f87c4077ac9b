//! Tests of the queue and the board.
#![tactic(auto)]

#[cfg(test)]
mod board;
#[cfg(test)]
mod queue;
#[cfg(test)]
mod shared;
