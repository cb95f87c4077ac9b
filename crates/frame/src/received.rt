//! A frame as received, and the parts of its bytes.
ghost use Rattle.std.specs.Prelude.{◌≡◌, ◌+◌, ◌/◌, ◌≤◌, length};
ghost use Rattle.std.specs.Result.{result_err};
ghost use Rattle.std.specs.List.{slice_get};
ghost use Rattle.protocol.specs.Limits.{frame_bytes_max};
ghost use Rattle.frame_items.specs.Format.{row_of, row_fault};

use crate::items::Items;
use frame_items::item::Item;
use frame_items::rows::check_row;
use protocol::refusal::FrameFault;

/// A part of a frame's bytes, with its place in the frame: a list of items.
#[derive(Clone, Copy)]
pub struct Part<'a> {
    pub bytes: &'a [u8],
    pub place: usize,
}

impl<'a> Part<'a> {
    /// How many items the part has.
    pub fn item_count<I: Item>(&self) -> usize
        ensures { result ≡ length self.now.bytes.now / (I.format 0).width }
    {
        self.bytes.len() / I::width()
    }

    /// The items of the part, one after another.
    pub fn items<I: Item>(&self) -> Items<'a, I>
        ensures { result.bytes.now ≡ self.now.bytes.now }
    {
        Items::of(self.bytes)
    }

    /// The item at an index of the part, if there is one.
    pub fn item_at<I: Item>(&self, index: usize) -> Option<I>
        ensures { result ≡ slice_get (row_of (I.format 0) self.now.bytes.now) index }
    {
        if index >= self.item_count::<I>() {
            return None;
        }
        // By its place: the iterator's `nth` would show all the items before it too.
        let width = I::width();
        let start = index * width;
        Some(I::shown(&self.bytes[start..start + width]))
    }

    /// Judges the items of the part, in the frame of a sender: the first fault is the error.
    pub fn check<I: Item>(&self, sender: u8) -> Result<(), FrameFault>
        requires { self.now.place + length self.now.bytes.now ≤ frame_bytes_max }
        ensures { result_err result ≡ row_fault (I.format sender) (length self.now.bytes.now / (I.format sender).width) 0 self.now.place self.now.bytes.now }
    {
        check_row::<I>(self.bytes, sender, self.place)
    }
}

/// A frame as received: what its header says, and its lists as parts of the received bytes.
#[derive(Clone, Copy)]
pub struct Received<'a> {
    pub sender: u8,
    pub tier: u8,
    pub addressee: u8,
    pub holds: bool,
    pub source_clock: u32,
    pub destination_clock: u32,
    pub slots: Part<'a>,
    pub tokens: Part<'a>,
    pub entries: Part<'a>,
}
