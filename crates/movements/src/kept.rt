ghost use Rattle.std.specs.Prelude.{◌≡◌, ◌^◌, ◌<◌, length};
ghost use Rattle.movements.specs.Faults.{Small, Faultless};

use crate::pair::{PAIRS, Pair};

/// A movements tally: the pairs of up to sixteen keys, and the rest, which has the counts of all other keys. Used pairs come first, with rising keys, and unused pairs are zeros.
#[derive(Clone, Copy)]
pub struct Movements {
    pub pairs: [Pair; PAIRS],
    pub rest: u32,
    ghost full: { length pairs ≡ 16 },
    ghost small: { Small pairs },
    ghost faultless: { Faultless pairs },
    ghost fits: { rest < 2 ^ 32 },
}
