//! The records that nodes keep and frames carry.

/// A promise to take one handoff of a source: the source's clock, and the destination's when it was made.
// Two fields and no pair of clocks, here and in tokens, headers and nodes: they are of other moments each, and each is asked for by its name.
#[derive(Clone, Copy, PartialEq, Eq, Debug)]
pub struct Slot {
    pub source_clock: u32,
    pub destination_clock: u32,
}

/// A slot with the source that it is for.
#[derive(Clone, Copy, PartialEq, Eq, Debug)]
pub struct SourceSlot {
    pub source: u8,
    pub slot: Slot,
}

/// A tally on its way from a source to a destination, for the slot that has its clocks.
#[derive(Clone, Copy, PartialEq, Eq, Debug)]
pub struct Token<K> {
    pub source: u8,
    pub destination: u8,
    pub source_clock: u32,
    pub destination_clock: u32,
    pub tally: K,
}

/// The key of a token: where it comes from and where it goes.
#[derive(Clone, Copy, PartialEq, Eq, PartialOrd, Ord, Debug)]
pub struct Pair {
    pub source: u8,
    pub destination: u8,
}

/// What a server had joined when its version was this.
#[derive(Clone, Copy, PartialEq, Eq, Debug)]
pub struct Entry<K> {
    pub number: u8,
    pub version: u32,
    pub tally: K,
}
