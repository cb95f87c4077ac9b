//! A frame that is to be written.
use protocol::records::{Entry, SourceSlot, Token};

/// What a frame is to carry; its lists are lent.
// The six fields of a received frame's header again: in one struct for both they would be read as `frame.header.sender` everywhere, to save one copy.
#[derive(Clone, Copy)]
pub struct Outgoing<'a, K> {
    pub sender: u8,
    pub tier: u8,
    pub addressee: u8,
    pub holds: bool,
    pub source_clock: u32,
    pub destination_clock: u32,
    pub slots: &'a [SourceSlot],
    pub tokens: &'a [Token<K>],
    pub entries: &'a [Entry<K>],
}

/// Why a frame was not written; the buffer is as it was.
#[derive(Clone, Copy, PartialEq, Eq, Debug)]
pub enum Unwritten {
    /// A list is longer than a frame may have.
    TooMany,
    /// The buffer is shorter than the frame.
    TooShort,
}
