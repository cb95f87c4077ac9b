//! What every layer of the collector shares: records, limits and refusals.
#![tactic(auto)]

pub mod keys;
pub mod limits;
pub mod records;
pub mod refusal;
