//! The lines of a log of frames in hexadecimal, and the account of what they showed.
#![tactic(auto)]

pub mod counts;
pub mod digit;
pub mod digits;
pub mod line;
pub mod standing;
pub mod summary;
pub mod tallies;
