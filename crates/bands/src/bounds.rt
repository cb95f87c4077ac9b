//! Which lengths a band has.
ghost use Rattle.std.specs.Prelude.{◌≡◌, ◌≤◌, MatchOption};
ghost use Rattle.bands.specs.Bounds.{span, bounds_of, Bound};

use std::fmt;
use tally::queues::EDGES;

/// Which lengths a band has.
#[derive(Clone, Copy, PartialEq, Eq, Debug)]
pub enum Bounds {
    One(u32),
    Between(u32, u32),
    From(u32),
}

impl fmt::Display for Bounds {
    fn fmt<W: fmt::Write>(&self, f: &mut fmt::Formatter<W>) -> fmt::Result {
        match self {
            Bounds::One(length) => write!(f, "{length}"),
            Bounds::Between(first, last) => write!(f, "{first}-{last}"),
            Bounds::From(first) => write!(f, "{first}+"),
        }
    }
}

// The lengths from one edge up to the next.
fn spanned(first: u32, next: u32) -> Bounds
    ensures { result ≡ span first next }
{
    if next.saturating_sub(first) <= 1 {
        Bounds::One(first)
    } else {
        Bounds::Between(first, next - 1)
    }
}

impl Bounds {
    /// The lengths of a band: exactly those whose last band it is. There are sixteen bands, from 0.
    #[tactic(auto, using(crate::proofs::Edges::bound_of))]
    pub fn of(band: usize) -> Option<Bounds>
        ensures value { result ≡ bounds_of band }
        ensures lengths { MatchOption result (16 ≤ band) (Bound band) }
    {
        let first = *EDGES.get(band)?;
        Some(match EDGES.get(band + 1) {
            Some(next) => spanned(first, *next),
            None => Bounds::From(first),
        })
    }
}
