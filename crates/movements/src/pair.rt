/// How many pairs a tally has, used or not.
pub const PAIRS: usize = 16;

/// A key and its count. In an unused pair both are 0.
// No `Option`: an unused pair is written as zeros, and takes no more room in a tally than in its bytes.
#[derive(Clone, Copy)]
pub struct Pair {
    pub key: u32,
    pub count: u32,
}

impl Pair {
    /// A pair that holds nothing.
    pub const UNUSED: Pair = Pair { key: 0, count: 0 };
}
