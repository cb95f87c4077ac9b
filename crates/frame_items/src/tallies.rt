//! The tally at the end of an item.
ghost use Rattle.std.specs.Prelude.{◌≡◌, ◌+◌, ◌≤◌, ◌++◌, length, take};
ghost use Rattle.std.specs.Result.{result_err};
ghost use Rattle.protocol.specs.Limits.{frame_bytes_max};
ghost use Rattle.frame_items.specs.Items.{tally_fault, tally_shown};

use protocol::refusal::{Condition, FrameFault};
use tally::kind::Tally;

// Judges the bytes of a tally at a place of a frame.
pub fn check_tally<K: Tally>(bytes: &[u8], place: usize) -> Result<(), FrameFault>
    requires width { length bytes.now ≡ K.kind.width }
    requires within { place ≤ frame_bytes_max + 10 }
    ensures { result_err result ≡ tally_fault K.kind place bytes.now }
{
    match K::read(bytes) {
        Ok(_) => Ok(()),
        Err(fault) => Err(FrameFault {
            condition: Condition::Tally(fault.number),
            place: place + fault.place,
        }),
    }
}

// The tally that bytes show; of unlawful bytes, the empty one.
pub fn tally_shown<K: Tally>(bytes: &[u8]) -> K
    requires { length bytes.now ≡ K.kind.width }
    ensures { result ≡ tally_shown K.kind bytes.now }
{
    // By `unwrap_or_else` the tally is copied once more, and taking a frame apart is a fifth slower.
    match K::read(bytes) {
        Ok(tally) => tally,
        Err(_) => K::empty(),
    }
}

// Lends the end of an item to the tally's own writing; the bytes before it stay.
pub fn write_tally<K: Tally>(tally: &K, item: &mut [u8], from: usize)
    requires { length item.old ≡ from + K.kind.width }
    ensures { item.new ≡ take from item.old ++ K.kind.bytes tally.now }
{
    tally.write(&mut item[from..]);
}
