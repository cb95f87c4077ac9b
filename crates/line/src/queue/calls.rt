//! What a queue does.
ghost use Rattle.std.specs.Prelude.{◌≡◌, []};
ghost use Rattle.line.specs.QueueHonest.{queue_honest};
ghost use Rattle.line.specs.Queue.{accepts, queue_line, queued};

use super::{PLACES, Queue};
use crate::frames::{holds_any, is_sized};
use crate::held::Held;
use crate::interface::{BufferTooShort, Line};
use protocol::limits::FRAME_BYTES_MIN;
use std::array;

impl Queue {
    /// A queue in which nothing waits.
    pub fn new() -> Queue
        ensures { queued result ≡ [] }
    {
        Queue {
            places: array::from_fn(|_| Held::new(&[0; FRAME_BYTES_MIN])),
            first: 0,
            count: 0,
        }
    }

    // Whether a frame is kept if it is put now.
    fn accepts(&self, frame: &[u8]) -> bool
        ensures { result ≡ accepts self.now.count frame.now }
    {
        is_sized(frame) && self.count < PLACES
    }
}

impl Line for Queue {
    ghost conduct = { queue_line };

    ghost honest = { queue_honest };

    fn put(&mut self, frame: &[u8]) {
        if self.accepts(frame) {
            let free = (self.first + self.count) % PLACES;
            let places = &mut self.places;
            places[free].hold(frame);
            self.count += 1;
        }
    }

    fn take(&mut self, buffer: &mut [u8]) -> Result<Option<usize>, BufferTooShort> {
        if !holds_any(buffer) {
            return Err(BufferTooShort);
        }
        if self.count == 0 {
            return Ok(None);
        }
        let size = self.places[self.first].copy_into(buffer);
        self.first = (self.first + 1) % PLACES;
        self.count -= 1;
        Ok(Some(size))
    }
}
