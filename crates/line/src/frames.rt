//! The lengths of frames and buffers.
ghost use Rattle.std.specs.Prelude.{◌≡◌, length, nat_le};
ghost use Rattle.protocol.specs.Limits.{frame_bytes_max};
ghost use Rattle.line.specs.Frames.{is_sized};

use protocol::limits::{FRAME_BYTES_MAX, FRAME_BYTES_MIN};

/// Whether bytes have the length of a frame.
pub fn is_sized(frame: &[u8]) -> bool
    ensures { result ≡ is_sized frame.now }
{
    (FRAME_BYTES_MIN..=FRAME_BYTES_MAX).contains(&frame.len())
}

/// Whether the longest frame would fit a buffer.
pub fn holds_any(buffer: &[u8]) -> bool
    ensures { result ≡ nat_le frame_bytes_max (length buffer.now) }
{
    FRAME_BYTES_MAX <= buffer.len()
}
