//! The limits of the protocol, each with its reason.

/// Nodes are numbered from 1 to this.
pub const NODES_MAX: u8 = 16;

/// The highest tier; tier 0 is a server.
pub const TIER_MAX: u8 = 3;

/// No clock and no version exceeds this, so that none ever wraps in its four bytes.
pub const CLOCK_MAX: u32 = 1_000_000_000;

/// The shortest frame: a header and no list.
pub const FRAME_BYTES_MIN: usize = 17;

/// The longest frame: 15 slots, 8 tokens and 4 entries of tallies of 132 bytes.
pub const FRAME_BYTES_MAX: usize = 1836;
