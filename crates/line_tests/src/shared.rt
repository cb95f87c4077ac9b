//! What the tests of all lines use.
use line::interface::{BufferTooShort, Line};
use protocol::limits::{FRAME_BYTES_MAX, FRAME_BYTES_MIN};
use std::process::Abort;

/// A frame of a sender, with a mark by which to know it again.
pub fn frame(sender: u8, mark: u8) -> [u8; FRAME_BYTES_MIN] {
    let mut bytes = [0; FRAME_BYTES_MIN];
    bytes[2] = sender;
    bytes[16] = mark;
    bytes
}

/// Puts a frame of a sender with a mark.
pub fn put<L: Line>(line: &mut L, sender: u8, mark: u8) {
    line.put(&frame(sender, mark));
}

/// The line gives the frame of this sender with this mark.
pub fn gives<L: Line>(rt: &impl Abort, line: &mut L, sender: u8, mark: u8) {
    let mut buffer = [0; FRAME_BYTES_MAX];
    assert_eq!(rt; line.take(&mut buffer), Ok(Some(FRAME_BYTES_MIN)));
    assert_eq!(rt; (buffer[2], buffer[16]), (sender, mark));
}

/// The line says that none waits.
pub fn gives_none<L: Line>(rt: &impl Abort, line: &mut L) {
    let mut buffer = [0; FRAME_BYTES_MAX];
    assert_eq!(rt; line.take(&mut buffer), Ok(None));
}

/// The line refuses a buffer that is one byte short, and leaves it.
pub fn refuses<L: Line>(rt: &impl Abort, line: &mut L) {
    let mut buffer = [9; 1835];
    assert_eq!(rt; line.take(&mut buffer), Err(BufferTooShort));
    assert!(rt; buffer[0] == 9 && buffer[2] == 9 && buffer[16] == 9);
}

/// The line loses frames that are too short or too long.
pub fn loses_other_lengths<L: Line>(rt: &impl Abort, line: &mut L) {
    line.put(&[1; 16]);
    line.put(&[1; 1837]);
    gives_none(rt, line);
}
