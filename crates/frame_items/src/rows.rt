//! Lists of items in the bytes of a frame.
ghost use Rattle.std.specs.Prelude.{◌≡◌, ℕ, ◌+◌, ◌*◌, ◌/◌, ◌<◌, ◌≤◌, ◌++◌, length, take, drop};
ghost use Rattle.std.specs.Result.{result_err};
ghost use Rattle.protocol.specs.Limits.{frame_bytes_max};
ghost use Rattle.frame_items.specs.Format.{row_bytes, row_fault, row_of};
ghost use Rattle.frame_items.specs.Items.{entries, has_entry};

use crate::item::Item;
use protocol::refusal::FrameFault;
use tally::kind::Tally;

/// Judges the items of a row of bytes at a place, in the frame of a sender: the first fault is the error.
pub fn check_row<I: Item>(row: &[u8], sender: u8, place: usize) -> Result<(), FrameFault>
    requires { place + length row.now ≤ frame_bytes_max }
    ensures { result_err result ≡ row_fault (I.format sender) (length row.now / (I.format sender).width) 0 place row.now }
{
    let width = I::width();
    let mut before = 0;
    for (index, item) in row.chunks_exact(width).enumerate() {
        let rank = I::rank(item);
        I::check(item, sender, before, place + index * width)?;
        before = rank;
    }
    Ok(())
}

/// Whether an entry of a number is among the entries of a row of bytes.
pub fn has_entry<K: Tally>(row: &[u8], number: u8) -> bool
    ensures { result ≡ has_entry number (row_of (entries K.kind) row.now) }
{
    let width = 5 + K::width();
    row.chunks_exact(width).any(|entry| entry[0] == number)
}

/// Writes items one after another from a place on, and answers the place behind them.
pub fn write_row<I: Item>(items: &[I], out: &mut [u8], start: usize) -> usize
    requires { start + length items.now * (I.format 0).width ≤ length out.old }
    ensures place { result ≡ start + length items.now * (I.format 0).width }
    ensures bytes { out.new ≡ (take start out.old ++ row_bytes (I.format 0) items.now) ++ drop result out.old }
{
    let width = I::width();
    // The place is kept by hand: of what is written through `chunks_exact_mut` a proof knows no byte.
    let mut at = start;
    for item in items {
        item.write(&mut out[at..at + width]);
        at += width;
    }
    at
}
