//! Tallies in words.
ghost use Rattle.std.specs.Iterator.{IsFinite};

use bands::bounds::Bounds;
use movements::Movements;
use movements::pair::Pair;
use std::fmt;
use tally::queues::Queues;
use tally::vehicles::Vehicles;

/// A tally that can be told in words. (The tallies are of other crates, so `Display` cannot be written for them here; and a bound `K: Told` says more than one on `InWords<K>`.)
pub trait Told {
    fn tell<W: fmt::Write>(&self, f: &mut fmt::Formatter<W>) -> fmt::Result;
}

/// A tally, to be printed in words.
#[derive(Clone, Copy)]
pub struct InWords<K> {
    pub tally: K,
}

impl<K: Told> fmt::Display for InWords<K> {
    fn fmt<W: fmt::Write>(&self, f: &mut fmt::Formatter<W>) -> fmt::Result {
        self.tally.tell(f)
    }
}

/// A part of a tally that is not empty.
#[derive(Clone, Copy)]
enum Part {
    /// Queues with the lengths of a band.
    Queues(Bounds, u32),
    /// A key with its count.
    Key(Pair),
    /// The counts of all keys that are not kept.
    Rest(u32),
}

impl fmt::Display for Part {
    fn fmt<W: fmt::Write>(&self, f: &mut fmt::Formatter<W>) -> fmt::Result {
        match self {
            Part::Queues(Bounds::From(first), count) => write!(f, "{first} and more: {count}"),
            Part::Queues(bounds, count) => write!(f, "{bounds}: {count}"),
            Part::Key(pair) => write!(f, "key {}: {}", pair.key, pair.count),
            Part::Rest(rest) => write!(f, "rest {rest}"),
        }
    }
}

// Tells the parts with a comma between them; where there is none, that the tally is empty.
fn tell_parts<W: fmt::Write, I: Iterator<Item = Part> + Drop>(
    f: &mut fmt::Formatter<W>,
    parts: I,
) -> fmt::Result
    requires can { I.can_next parts }
    requires ends { IsFinite (I.remaining parts) }
{
    let mut any = false;
    for part in parts {
        if any {
            f.write_str(", ")?;
        }
        write!(f, "{part}")?;
        any = true;
    }
    if any { Ok(()) } else { f.write_str("empty") }
}

impl Told for Vehicles {
    fn tell<W: fmt::Write>(&self, f: &mut fmt::Formatter<W>) -> fmt::Result {
        match self.count {
            0 => write!(f, "empty"),
            1 => write!(f, "1 vehicle"),
            count => write!(f, "{count} vehicles"),
        }
    }
}

impl Told for Queues {
    fn tell<W: fmt::Write>(&self, f: &mut fmt::Formatter<W>) -> fmt::Result {
        let parts = self.counts.iter().enumerate().filter_map(|(band, count)| {
            let bounds = Bounds::of(band)?;
            (*count > 0).then_some(Part::Queues(bounds, *count))
        });
        tell_parts(f, parts)
    }
}

impl Told for Movements {
    fn tell<W: fmt::Write>(&self, f: &mut fmt::Formatter<W>) -> fmt::Result {
        let keys = self.pairs.iter().filter(|pair| pair.key != 0);
        let rest = (self.rest != 0).then_some(Part::Rest(self.rest));
        tell_parts(f, keys.map(|pair| Part::Key(*pair)).chain(rest))
    }
}
