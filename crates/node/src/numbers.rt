use protocol::records::Slot;

/// The slot of each number, if there is one.
// A fixed array: a node uses no heap.
#[derive(Clone, Copy)]
pub struct Slots {
    pub places: [Option<Slot>; 16],
}

/// A node without its tallies: those lie in memory that is lent to each call.
#[derive(Clone, Copy)]
pub struct Node {
    pub number: u8,
    pub tier: u8,
    pub source_clock: u32,
    pub destination_clock: u32,
    pub version: u32,
    pub retired: bool,
    pub slots: Slots,
}
