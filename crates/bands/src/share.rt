//! A share in tenths of a percent.
ghost use Rattle.std.specs.Prelude.{◌≡◌};
ghost use Rattle.bands.specs.Share.{tenths, Nearest};

use std::fmt;

/// A share in tenths of a percent.
#[derive(Clone, Copy, PartialEq, Eq, Debug)]
pub struct Share {
    pub tenths: u128,
}

impl fmt::Display for Share {
    fn fmt<W: fmt::Write>(&self, f: &mut fmt::Formatter<W>) -> fmt::Result {
        let whole = self.tenths / 10;
        let tenth = self.tenths % 10;
        write!(f, "{whole}.{tenth}%")
    }
}

impl Share {
    /// The share of a part in a whole, to the nearest tenth of a percent, half up. Of nothing it is 0.
    #[tactic(auto, using(crate::proofs::Shares::nearest_of))]
    pub fn of(part: u64, whole: u64) -> Share
        ensures value { result.tenths ≡ tenths part whole }
        ensures nearest { Nearest part whole result.tenths }
    {
        let tenths = if whole == 0 {
            0
        } else {
            (2000 * u128::from(part) + u128::from(whole)) / (2 * u128::from(whole))
        };
        Share { tenths }
    }
}
