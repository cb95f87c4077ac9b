//! Reading and rewriting of frames as functions on bytes, for measurements from another language.
#![tactic(auto)]

ghost use Rattle.std.specs.Prelude.{◌≡◌};
ghost use Rattle.std.specs.Option.{option_map};
ghost use Rattle.std.specs.Result.{result_err};
ghost use Rattle.protocol.specs.Refusals.{condition_number};
ghost use Rattle.frame.specs.Frames.{judge};

use frame::outgoing::Outgoing;
use frame::reader::read;
use frame::received::{Part, Received};
use frame::writer::write;
use frame_items::item::Item;
use movements::Movements;
use protocol::records::{Entry, Slot, SourceSlot, Token};
use tally::kind::Tally;
use tally::queues::Queues;
use tally::vehicles::Vehicles;

// The number of the condition that a frame fails.
fn verdict<K: Tally>(bytes: &[u8]) -> Option<u8>
    ensures { result ≡ option_map (λ fault. condition_number fault.condition) (result_err (judge K.kind bytes.now)) }
{
    read::<K>(bytes).err().map(|fault| fault.condition.number())
}

// Takes the items of a part apart into places, as many as there are.
fn unpacked<'a, I: Item>(part: &Part<'_>, places: &'a mut [I]) -> &'a [I] {
    for (place, item) in places.iter_mut().zip(part.items::<I>()) {
        *place = item;
    }
    let count = part.item_count::<I>().min(places.len());
    &places[0..count]
}

fn no_token<K: Tally>() -> Token<K> {
    Token {
        source: 0,
        destination: 0,
        source_clock: 0,
        destination_clock: 0,
        tally: K::empty(),
    }
}

fn no_entry<K: Tally>() -> Entry<K> {
    Entry {
        number: 0,
        version: 0,
        tally: K::empty(),
    }
}

// Takes a frame of a kind apart into its items and writes it anew, and answers the length. Tokens and entries go in lent places, since the room that an array of them takes must be known; they are made once the frame is known to be lawful.
fn rewritten<K: Tally>(
    frame: &Received<'_>,
    tokens: &mut [Token<K>],
    entries: &mut [Entry<K>],
    out: &mut [u8],
) -> Option<usize> {
    let slot = Slot {
        source_clock: 0,
        destination_clock: 0,
    };
    let mut slots = [SourceSlot { source: 0, slot }; 15];
    let outgoing = Outgoing {
        sender: frame.sender,
        tier: frame.tier,
        addressee: frame.addressee,
        holds: frame.holds,
        source_clock: frame.source_clock,
        destination_clock: frame.destination_clock,
        slots: unpacked(&frame.slots, &mut slots),
        tokens: unpacked(&frame.tokens, tokens),
        entries: unpacked(&frame.entries, entries),
    };
    write(&outgoing, out).ok()
}

// A function for each kind, since C has no type parameters.
#[unsafe(no_mangle)]
pub extern "C" fn frame_verdict_vehicles(bytes: &[u8]) -> u8 {
    verdict::<Vehicles>(bytes).unwrap_or(0)
}

#[unsafe(no_mangle)]
pub extern "C" fn frame_verdict_queues(bytes: &[u8]) -> u8 {
    verdict::<Queues>(bytes).unwrap_or(0)
}

#[unsafe(no_mangle)]
pub extern "C" fn frame_verdict_movements(bytes: &[u8]) -> u8 {
    verdict::<Movements>(bytes).unwrap_or(0)
}

#[unsafe(no_mangle)]
pub extern "C" fn frame_rewrite_vehicles(bytes: &[u8], out: &mut [u8]) -> usize {
    let Ok(frame) = read::<Vehicles>(bytes) else {
        return 0;
    };
    let mut tokens = [no_token::<Vehicles>(); 8];
    let mut entries = [no_entry::<Vehicles>(); 4];
    rewritten(&frame, &mut tokens, &mut entries, out).unwrap_or(0)
}

#[unsafe(no_mangle)]
pub extern "C" fn frame_rewrite_queues(bytes: &[u8], out: &mut [u8]) -> usize {
    let Ok(frame) = read::<Queues>(bytes) else {
        return 0;
    };
    let mut tokens = [no_token::<Queues>(); 8];
    let mut entries = [no_entry::<Queues>(); 4];
    rewritten(&frame, &mut tokens, &mut entries, out).unwrap_or(0)
}

#[unsafe(no_mangle)]
pub extern "C" fn frame_rewrite_movements(bytes: &[u8], out: &mut [u8]) -> usize {
    let Ok(frame) = read::<Movements>(bytes) else {
        return 0;
    };
    let mut tokens = [no_token::<Movements>(); 8];
    let mut entries = [no_entry::<Movements>(); 4];
    rewritten(&frame, &mut tokens, &mut entries, out).unwrap_or(0)
}
