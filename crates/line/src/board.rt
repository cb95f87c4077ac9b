//! The board.
mod calls;

ghost use Rattle.std.specs.Prelude.{◌≡◌, ◌≤◌, length};
ghost use Rattle.protocol.specs.Limits.{nodes_max};

use crate::held::Held;
use protocol::limits::NODES_MAX;

/// How many senders have a place.
const SENDERS: usize = NODES_MAX as usize;

/// A line that keeps the latest frame of each sender, and gives them in turn.
#[derive(Drop)]
pub struct Board {
    // the latest frame of sender 1, 2 and so on, if one was heard of it
    frames: [Option<Held>; SENDERS],
    // where the round goes on: the place after that of the frame given last
    next: usize,
    ghost round: { (length frames ≡ nodes_max) × (next ≤ nodes_max) },
}
