//! Frames: the format, its reader and its writer.
#![tactic(auto)]

pub mod header;
pub mod items;
pub mod outgoing;
pub mod reader;
pub mod received;
pub mod writer;
