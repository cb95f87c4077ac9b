//! The queue.
mod calls;

ghost use Rattle.std.specs.Prelude.{◌≡◌, ◌<◌, ◌≤◌, length};
ghost use Rattle.line.specs.Places.{queue_places};

use crate::held::Held;

/// How many frames a queue keeps.
pub const PLACES: usize = 8;

/// A line that gives each frame once and the oldest first, and loses a frame when eight wait.
#[derive(Drop)]
pub struct Queue {
    // a ring: the oldest frame is in the place `first`, and `count` wait from there on
    // (by hand: the kit's ring is on the heap, and an `ArrayVec` that moves all up at a taking was timed at 7 to 40 times this)
    places: [Held; PLACES],
    first: usize,
    count: usize,
    ghost ring: { (length places ≡ queue_places) × (first < queue_places) × (count ≤ queue_places) },
}
