//! The tally kind `movements`: counts by key, of which the sixteen smallest keys are kept.
#![tactic(auto)]

mod coding;
pub mod fault;
mod join;
mod kept;
mod kind;
mod one;
pub mod pair;
pub mod words;

pub use kept::Movements;
