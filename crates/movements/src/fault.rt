ghost use Rattle.std.specs.Prelude.{◌≡◌};
ghost use Rattle.std.specs.Result.{result_err};
ghost use Rattle.movements.specs.Faults.{number, Numbered, fault_of};

use crate::pair::Pair;
use thiserror::Error;

/// What is wrong with a pair.
#[derive(Clone, Copy, PartialEq, Eq, Debug, Error)]
pub enum PairFault {
    #[error("of a key and its count, one is 0 and the other is not")]
    HalfUsed = 40,
    #[error("a used pair stands after an unused one")]
    AfterUnused = 41,
    #[error("the keys do not rise")]
    NotRising = 42,
}

impl PairFault {
    /// The number that a reader reports.
    // A method, as every refusal has one for its number.
    pub fn number(self) -> u8
        ensures { result ≡ number self }
    {
        self as u8
    }
}

/// A number that no fault has.
#[derive(Clone, Copy, PartialEq, Eq, Debug)]
pub struct UnknownFault(pub u8);

impl TryFrom<u8> for PairFault {
    type Error = UnknownFault;

    ghost try_from_gives = { Numbered };

    fn try_from(number: u8) -> Result<Self, UnknownFault> {
        match number {
            40 => Ok(PairFault::HalfUsed),
            41 => Ok(PairFault::AfterUnused),
            42 => Ok(PairFault::NotRising),
            _ => Err(UnknownFault(number)),
        }
    }
}

/// Asks of a pair that stands after another, or first: its count is 0 exactly when its key is, and a used pair stands after used ones, whose keys are smaller.
pub fn check_pair(pair: Pair, before: Option<Pair>) -> Result<(), PairFault>
    ensures { result_err result ≡ fault_of pair before }
{
    if (pair.key == 0) != (pair.count == 0) {
        return Err(PairFault::HalfUsed);
    }
    if pair.key == 0 {
        return Ok(());
    }
    match before {
        None => Ok(()),
        Some(last) if last.key == 0 => Err(PairFault::AfterUnused),
        Some(last) if pair.key <= last.key => Err(PairFault::NotRising),
        Some(_) => Ok(()),
    }
}
