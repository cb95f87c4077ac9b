//! The keyed table: records under their keys, in a lent slice of places.
#![tactic(auto)]

mod above;
pub mod lending;
pub mod records;
pub mod tables;
