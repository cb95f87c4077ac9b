//! A frame in words.
use frame::received::Received;
use frame_logs::tallies::{InWords, Told};
use protocol::records::{Entry, SourceSlot, Token};
use std::{fmt, io};
use tally::kind::Tally;

/// A line of a log.
#[derive(Clone, Copy)]
pub struct Place<'a> {
    pub name: &'a str,
    pub line: u64,
}

impl fmt::Display for Place<'_> {
    fn fmt<W: fmt::Write>(&self, f: &mut fmt::Formatter<W>) -> fmt::Result {
        write!(f, "{}:{}", self.name, self.line)
    }
}

// Functions, here and below, and no types that print themselves: each is printed at one place, and a type would only hold a reference.
fn print_slot(rt: &HostRuntime, slot: &SourceSlot) -> io::Result<()> {
    println!(rt;
        "    slot for source {}: source clock {}, destination clock {}",
        slot.source, slot.slot.source_clock, slot.slot.destination_clock
    )
}

fn print_token<K: Told + Copy>(rt: &HostRuntime, token: &Token<K>) -> io::Result<()> {
    println!(rt;
        "    token from {} to {}: source clock {}, destination clock {}, {}",
        token.source,
        token.destination,
        token.source_clock,
        token.destination_clock,
        InWords { tally: token.tally }
    )
}

fn print_entry<K: Told + Copy>(rt: &HostRuntime, entry: &Entry<K>) -> io::Result<()> {
    println!(rt;
        "    entry {}: version {}, {}",
        entry.number,
        entry.version,
        InWords { tally: entry.tally }
    )
}

fn print_header(rt: &HostRuntime, place: &Place<'_>, frame: &Received<'_>) -> io::Result<()> {
    println!(rt;
        "{place}: frame from {}, tier {}, to {}: holds {}, source clock {}, destination clock {}",
        frame.sender,
        frame.tier,
        frame.addressee,
        if frame.holds { "something" } else { "nothing" },
        frame.source_clock,
        frame.destination_clock
    )
}

/// Prints a frame: its header, then a line for each slot, token and entry.
pub fn print_frame<K: Tally + Told>(
    rt: &HostRuntime,
    place: &Place<'_>,
    frame: &Received<'_>,
) -> io::Result<()> {
    print_header(rt, place, frame)?;
    for slot in frame.slots.items::<SourceSlot>() {
        print_slot(rt, &slot)?;
    }
    for token in frame.tokens.items::<Token<K>>() {
        print_token(rt, &token)?;
    }
    for entry in frame.entries.items::<Entry<K>>() {
        print_entry(rt, &entry)?;
    }
    Ok(())
}
