//! What slots, tokens and entries have in common as items of a frame's lists.
ghost use Rattle.std.specs.Prelude.{◌≡◌, ℕ, ◌<◌, ◌≤◌, length};
ghost use Rattle.std.specs.Result.{result_err};
ghost use Rattle.protocol.specs.Limits.{frame_bytes_max};
ghost use Rattle.frame_items.specs.Format.{Format};

use protocol::refusal::FrameFault;

/// An item of a frame's lists. Its meaning is its format in the frames of each sender.
// The width stands in each clause: no array type can have a length that the kind of the tallies gives.
pub trait Item: Copy {
    ghost format: { ℕ → Format Self };

    /// How many bytes an item is written in.
    fn width() -> usize
        ensures { (sender : ℕ) → result ≡ (format sender).width };

    /// By what the items of a list rise, from the bytes of one.
    fn rank(bytes: &[u8]) -> u16
        requires { length bytes.now ≡ (format 0).width }
        ensures { (sender : ℕ) → result ≡ (format sender).rank ((format sender).shows bytes.now) };

    /// Judges the bytes at a place of a frame, after an item of a rank: the first condition that they fail is the error.
    fn check(bytes: &[u8], sender: u8, before: u16, place: usize) -> Result<(), FrameFault>
        requires width { length bytes.now ≡ (format sender).width }
        requires within { place ≤ frame_bytes_max }
        ensures { result_err result ≡ (format sender).fault before place bytes.now };

    /// The item that bytes show.
    fn shown(bytes: &[u8]) -> Self
        requires { length bytes.now ≡ (format 0).width }
        ensures { (sender : ℕ) → result ≡ (format sender).shows bytes.now };

    /// Writes the item into a part of a buffer that is as long as an item.
    fn write(&self, out: &mut [u8])
        requires { length out.old ≡ (format 0).width }
        ensures { (sender : ℕ) → out.new ≡ (format sender).bytes self.now };

    ghost wide: { 0 < (format 0).width };

    ghost long: { (x : Self) → length ((format 0).bytes x) ≡ (format 0).width };
}
