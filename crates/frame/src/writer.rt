//! The writer: a frame into the first bytes of a buffer.
ghost use Rattle.std.specs.Prelude.{◌≡◌, ℕ, ◌+◌, ◌*◌, ◌<◌, ◌≤◌, ◌++◌, length, drop};
ghost use Rattle.frame_items.specs.Format.{row_bytes};
ghost use Rattle.frame_items.specs.Items.{slots, tokens, entries};
ghost use Rattle.frame.specs.Frames.{header_with, Exact};
ghost use Rattle.frame.specs.Written.{carried, written_length, Written};

use crate::header::{EDITION, counted_length};
use crate::outgoing::{Outgoing, Unwritten};
use frame_items::rows::write_row;
use tally::kind::Tally;

/// The first bytes of a frame, with these counts of its lists: in the order of the format, one by one.
pub fn header_bytes<K: Tally>(
    frame: &Outgoing<'_, K>,
    slots: u8,
    tokens: u8,
    entries: u8,
) -> [u8; 17]
    ensures { result ≡ header_with K.kind (carried frame.now) slots tokens entries }
{
    let [s0, s1, s2, s3] = frame.source_clock.to_be_bytes();
    let [d0, d1, d2, d3] = frame.destination_clock.to_be_bytes();
    [
        EDITION,
        K::code(),
        frame.sender,
        frame.tier,
        frame.addressee,
        u8::from(frame.holds),
        s0,
        s1,
        s2,
        s3,
        d0,
        d1,
        d2,
        d3,
        slots,
        tokens,
        entries,
    ]
}

// Writes a header and the lists behind it, and answers the length of the frame.
fn write_all<K: Tally>(header: &[u8; 17], frame: &Outgoing<'_, K>, out: &mut [u8]) -> usize
    requires { written_length K.kind frame.now ≤ length out.old }
    ensures place { result ≡ written_length K.kind frame.now }
    ensures bytes { out.new ≡ (header.now ++ (row_bytes (slots 0) frame.now.slots.now ++ (row_bytes (tokens K.kind) frame.now.tokens.now ++ row_bytes (entries K.kind) frame.now.entries.now))) ++ drop result out.old }
{
    out[..17].copy_from_slice(header);
    let tokens_place = write_row(frame.slots, out, 17);
    let entries_place = write_row(frame.tokens, out, tokens_place);
    write_row(frame.entries, out, entries_place)
}

/// Writes a frame into the first bytes of a buffer and answers its length; the rest stays, and a refusal leaves all.
pub fn write<K: Tally>(frame: &Outgoing<'_, K>, out: &mut [u8]) -> Result<usize, Unwritten>
    ensures written { Written K.kind (carried frame.now) out.old out.new result }
    ensures exact { Exact K.kind }
{
    let slots = frame.slots.len();
    let tokens = frame.tokens.len();
    let entries = frame.entries.len();
    if slots > 15 || tokens > 8 || entries > 4 {
        return Err(Unwritten::TooMany);
    }
    let header = header_bytes(frame, slots as u8, tokens as u8, entries as u8);
    if out.len() < counted_length::<K>(slots as u8, tokens as u8, entries as u8) {
        return Err(Unwritten::TooShort);
    }
    Ok(write_all(&header, frame, out))
}
