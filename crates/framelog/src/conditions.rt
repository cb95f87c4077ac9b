//! The conditions of a lawful frame, in plain words.
use movements::fault::PairFault;
use protocol::refusal::{Condition, FrameFault};
use std::fmt;

/// The conditions in the order of their numbers; that of a tally stands once, whatever the tally's own fault.
pub const CONDITIONS: [Condition; 12] = [
    Condition::Length,
    Condition::Edition,
    Condition::Kind,
    Condition::Parties,
    Condition::Holding,
    Condition::Clock,
    Condition::Counts,
    Condition::CountedLength,
    Condition::Numbers,
    Condition::ItemClock,
    Condition::Tally(0),
    Condition::OwnEntry,
];

/// What a condition is about.
pub fn subject(condition: &Condition) -> &'static str {
    match condition {
        Condition::Length => "length",
        Condition::Edition => "edition",
        Condition::Kind => "kind",
        Condition::Parties => "sender, addressee and tier",
        Condition::Holding => "whether the sender holds something",
        Condition::Clock => "the sender's clocks",
        Condition::Counts => "counts",
        Condition::CountedLength => "length by the counts",
        Condition::Numbers => "numbers of an item",
        Condition::ItemClock => "clocks of an item",
        Condition::Tally(_) => "tally of an item",
        Condition::OwnEntry => "the sender's own entry",
    }
}

// Which of sender, addressee and tier fails: a refusal tells it by the place of the byte alone.
fn party(place: usize) -> &'static str {
    match place {
        2 => "the sender's number is not from 1 to 16",
        4 => "the addressee's number is not from 1 to 16, or is the sender's",
        _ => "the tier is above 3",
    }
}

// Which of the counts fails: a refusal tells it by the place of the byte alone.
fn count(place: usize) -> &'static str {
    match place {
        14 => "there are more than 15 slots",
        15 => "there are more than 8 tokens",
        _ => "a frame of tier 0 has 1 to 4 entries, and any other has none",
    }
}

// What is wrong with a tally, by the number of its fault: those of movements have one, and tallies of the other kinds have none.
fn write_tally_fault<W: fmt::Write>(f: &mut fmt::Formatter<W>, number: u8) -> fmt::Result {
    write!(f, "the tally of an item has fault {number}: ")?;
    match PairFault::try_from(number) {
        Ok(fault) => write!(f, "{fault}"),
        Err(_) => f.write_str("it is not lawful"),
    }
}

/// Why a frame is refused, in plain words.
#[derive(Clone, Copy)]
pub struct Meaning {
    pub fault: FrameFault,
}

impl fmt::Display for Meaning {
    fn fmt<W: fmt::Write>(&self, f: &mut fmt::Formatter<W>) -> fmt::Result {
        match self.fault.condition {
            Condition::Length => f.write_str("a frame has 17 to 1836 bytes"),
            Condition::Edition => f.write_str("the edition is not 1"),
            Condition::Kind => f.write_str("the frame is of another kind"),
            Condition::Parties => f.write_str(party(self.fault.place)),
            Condition::Holding => {
                f.write_str("the byte for whether the sender holds something is above 1")
            }
            Condition::Clock => f.write_str("a clock of the sender is above 1000000000"),
            Condition::Counts => f.write_str(count(self.fault.place)),
            Condition::CountedLength => f.write_str("the frame is not as long as its counts say"),
            Condition::Numbers => f.write_str(
                "an item's numbers are no nodes' numbers that may stand there, or do not rise",
            ),
            Condition::ItemClock => {
                f.write_str("a clock or a version of an item is above 1000000000")
            }
            Condition::Tally(number) => write_tally_fault(f, number),
            Condition::OwnEntry => f.write_str("a frame of tier 0 lacks the entry of its sender"),
        }
    }
}
