//! The reader: judges received bytes, and hands out what a frame shows.
ghost use Rattle.std.specs.Prelude.{◌≡◌};
ghost use Rattle.std.specs.Result.{result_err};
ghost use Rattle.frame.specs.Laid.{Counted, Laid};
ghost use Rattle.frame.specs.Frames.{shown, judge, Exact};
ghost use Rattle.frame.specs.View.{viewed, answered, parts_fault, PartsWithin};

use crate::header::check_header;
use crate::received::{Part, Received};
use big_endian::BigEndian;
use frame_items::require::require;
use frame_items::rows::has_entry;
use protocol::records::{Entry, SourceSlot, Token};
use protocol::refusal::{Condition, FrameFault};
use tally::kind::Tally;

// The lists of a frame, and that a server's frame has the sender's entry.
fn check_lists<K: Tally>(frame: &Received<'_>) -> Result<(), FrameFault>
    requires { PartsWithin frame.now }
    ensures { result_err result ≡ parts_fault K.kind frame.now }
{
    frame.slots.check::<SourceSlot>(frame.sender)?;
    frame.tokens.check::<Token<K>>(frame.sender)?;
    frame.entries.check::<Entry<K>>(frame.sender)?;
    let own_entry = frame.tier != 0 || has_entry::<K>(frame.entries.bytes, frame.sender);
    require(own_entry, Condition::OwnEntry, 16)
}

// The fields and the parts of bytes whose header is lawful.
fn received<'a, K: Tally>(bytes: &'a [u8]) -> Received<'a>
    requires { Counted K.kind bytes.now }
    ensures laid { Laid K.kind bytes.now result }
    ensures view { viewed K.kind result ≡ shown K.kind bytes.now }
{
    let tokens_place = 17 + usize::from(bytes[14]) * 9;
    let entries_place = tokens_place + usize::from(bytes[15]) * (10 + K::width());
    let end = bytes.len();
    Received {
        sender: bytes[2],
        tier: bytes[3],
        addressee: bytes[4],
        holds: bytes[5] == 1,
        source_clock: u32::read_at(bytes, 6),
        destination_clock: u32::read_at(bytes, 10),
        slots: Part {
            bytes: &bytes[17..tokens_place],
            place: 17,
        },
        tokens: Part {
            bytes: &bytes[tokens_place..entries_place],
            place: tokens_place,
        },
        entries: Part {
            bytes: &bytes[entries_place..end],
            place: entries_place,
        },
    }
}

/// Judges received bytes: the first condition of a lawful frame that they fail, or the frame.
pub fn read<'a, K: Tally>(bytes: &'a [u8]) -> Result<Received<'a>, FrameFault>
    ensures judged { answered K.kind result ≡ judge K.kind bytes.now }
    ensures exact { Exact K.kind }
{
    check_header::<K>(bytes)?;
    let frame = received::<K>(bytes);
    check_lists::<K>(&frame)?;
    Ok(frame)
}
