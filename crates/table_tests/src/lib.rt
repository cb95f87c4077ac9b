//! Tests of the keyed table, over records of their own.
#![tactic(auto)]

pub mod coins;
pub mod keys;
pub mod memory;
#[cfg(test)]
mod tests;
