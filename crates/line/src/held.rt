//! A place for one frame.
ghost use Rattle.std.specs.Prelude.{◌≡◌, ◌≤◌, ◌++◌, length, drop};
ghost use Rattle.protocol.specs.Limits.{frame_bytes_min, frame_bytes_max};

use protocol::limits::{FRAME_BYTES_MAX, FRAME_BYTES_MIN};

/// A frame in a place as long as the longest.
#[derive(Drop)]
pub struct Held {
    // the frame is the first `size` of them (no `ArrayVec`: one that is cleared blanks all that it held)
    bytes: [u8; FRAME_BYTES_MAX],
    size: usize,
    ghost sized: { (frame_bytes_min ≤ size) × (size ≤ frame_bytes_max) × (size ≤ length bytes) },
}

// Copies bytes over the first of others, which stay from there on.
fn copy_over(bytes: &[u8], others: &mut [u8])
    requires { length bytes.now ≤ length others.old }
    ensures { others.new ≡ bytes.now ++ drop (length bytes.now) others.old }
{
    let size = bytes.len();
    others[..size].copy_from_slice(bytes);
}

impl Held {
    ghost use Rattle.std.specs.Prelude.{◌≡◌, ◌≤◌, length};
    ghost use Rattle.protocol.specs.Limits.{frame_bytes_max};
    ghost use Rattle.line.specs.Frames.{Sized};
    ghost use Rattle.line.specs.Held.{content, Copied};

    /// A place that holds a frame.
    pub fn new(frame: &[u8]) -> Held
        requires { Sized frame.now }
        ensures { content result ≡ frame.now }
    {
        let mut held = Held {
            bytes: [0; FRAME_BYTES_MAX],
            size: FRAME_BYTES_MIN,
        };
        held.hold(frame);
        held
    }

    /// Holds another frame from now on.
    pub fn hold(&mut self, frame: &[u8])
        requires { Sized frame.now }
        ensures { content self.new ≡ frame.now }
    {
        copy_over(frame, &mut self.bytes);
        self.size = frame.len();
    }

    /// Copies the frame into the first bytes of a buffer, and answers its length.
    pub fn copy_into(&self, buffer: &mut [u8]) -> usize
        requires { frame_bytes_max ≤ length buffer.old }
        ensures { Copied (content self.now) buffer.old result buffer.new }
    {
        copy_over(&self.bytes[..self.size], buffer);
        self.size
    }
}
