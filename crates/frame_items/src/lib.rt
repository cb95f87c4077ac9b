//! The items of a frame: slots, tokens and entries, each by itself and in lists.
#![tactic(auto)]

pub mod entries;
pub mod item;
pub mod require;
pub mod rows;
pub mod slots;
pub mod tallies;
pub mod tokens;
