//! A bar of marks.
ghost use Rattle.std.specs.Prelude.{◌≡◌, ◌<◌, ◌≤◌};
ghost use Rattle.bands.specs.Bar.{marks};

use std::fmt;

/// The longest bar.
pub const WIDTH: u64 = 40;

/// A bar of marks.
#[derive(Clone, Copy, PartialEq, Eq, Debug)]
pub struct Bar {
    pub marks: u64,
}

impl fmt::Display for Bar {
    fn fmt<W: fmt::Write>(&self, f: &mut fmt::Formatter<W>) -> fmt::Result {
        let width = self.marks as usize;
        write!(f, "{:#<width$}", "")
    }
}

impl Bar {
    /// The bar of a count beside the largest count, which has the full width: in proportion, rounded up.
    #[tactic(auto, using(crate::proofs::Bars::marks_some_of, crate::proofs::Bars::marks_within_of))]
    pub fn of(count: u32, largest: u32) -> Bar
        ensures value { result.marks ≡ marks count largest }
        ensures some { 0 < count → 0 < result.marks }
        ensures within { result.marks ≤ 40 }
    {
        let marks = if count == 0 {
            0
        } else if count >= largest {
            WIDTH
        } else {
            (u64::from(count) * WIDTH).div_ceil(u64::from(largest))
        };
        Bar { marks }
    }
}
