//! The conditions on the first bytes of a frame.
ghost use Rattle.std.specs.Prelude.{◌≡◌, ◌+◌, ◌*◌, take, IfOk};
ghost use Rattle.std.specs.Result.{result_err};
ghost use Rattle.frame_items.specs.Items.{number as is_number};
ghost use Rattle.frame.specs.Frames.{entries_allowed, opening_fault, parties_fault, state_fault, counted_fault, length_with, header_fault};

use big_endian::BigEndian;
use frame_items::require::require;
use protocol::limits::{CLOCK_MAX, FRAME_BYTES_MAX, NODES_MAX, TIER_MAX};
use protocol::refusal::{Condition, FrameFault};
use tally::kind::Tally;

/// The edition of the format.
pub const EDITION: u8 = 1;

// The first bytes, if length, edition and kind are right.
fn opening<K: Tally>(bytes: &[u8]) -> Result<&[u8; 17], FrameFault>
    ensures fault { result_err result ≡ opening_fault K.kind bytes.now }
    ensures header { IfOk result (λ header. header.now ≡ take 17 bytes.now) }
{
    let too_short = FrameFault {
        condition: Condition::Length,
        place: 0,
    };
    let header = bytes.first_chunk::<17>().ok_or(too_short)?;
    require(bytes.len() <= FRAME_BYTES_MAX, Condition::Length, 0)?;
    require(header[0] == EDITION, Condition::Edition, 0)?;
    require(header[1] == K::code(), Condition::Kind, 1)?;
    Ok(header)
}

// Whether a byte is the number of a node.
fn is_number(number: u8) -> bool
    ensures { result ≡ is_number number }
{
    (1..=NODES_MAX).contains(&number)
}

// Sender, addressee and tier.
fn check_parties(header: &[u8; 17]) -> Result<(), FrameFault>
    ensures { result_err result ≡ parties_fault header.now }
{
    require(is_number(header[2]), Condition::Parties, 2)?;
    let another_node = is_number(header[4]) && header[4] != header[2];
    require(another_node, Condition::Parties, 4)?;
    require(header[3] <= TIER_MAX, Condition::Parties, 3)
}

// Whether the sender holds something, and its clocks.
fn check_state(header: &[u8; 17]) -> Result<(), FrameFault>
    ensures { result_err result ≡ state_fault header.now }
{
    require(header[5] <= 1, Condition::Holding, 5)?;
    let source_within = u32::read_at(header, 6) <= CLOCK_MAX;
    require(source_within, Condition::Clock, 6)?;
    let destination_within = u32::read_at(header, 10) <= CLOCK_MAX;
    require(destination_within, Condition::Clock, 10)
}

// Whether a frame of a tier may have so many entries.
fn entries_allowed(tier: u8, count: u8) -> bool
    ensures { result ≡ entries_allowed tier count }
{
    if tier == 0 {
        1 <= count && count <= 4
    } else {
        count == 0
    }
}

// The counts of the lists, and the length that they give.
fn check_counts<K: Tally>(header: &[u8; 17], length: usize) -> Result<(), FrameFault>
    ensures { result_err result ≡ counted_fault K.kind header.now length }
{
    let [.., slots, tokens, entries] = *header;
    require(slots <= 15, Condition::Counts, 14)?;
    require(tokens <= 8, Condition::Counts, 15)?;
    let few_entries = entries_allowed(header[3], entries);
    require(few_entries, Condition::Counts, 16)?;
    let counted = counted_length::<K>(slots, tokens, entries);
    require(length == counted, Condition::CountedLength, 14)
}

/// The length of a frame with so many slots, tokens and entries.
pub fn counted_length<K: Tally>(slots: u8, tokens: u8, entries: u8) -> usize
    ensures { result ≡ length_with K.kind slots tokens entries }
{
    let width = K::width();
    17 + usize::from(slots) * 9
        + usize::from(tokens) * (10 + width)
        + usize::from(entries) * (5 + width)
}

/// Judges the header of a frame: the first condition that it fails is the error.
pub fn check_header<K: Tally>(bytes: &[u8]) -> Result<(), FrameFault>
    ensures { result_err result ≡ header_fault K.kind bytes.now }
{
    let header = opening::<K>(bytes)?;
    check_parties(header)?;
    check_state(header)?;
    check_counts::<K>(header, bytes.len())
}
