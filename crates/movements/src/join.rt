ghost use Rattle.std.specs.Prelude.{◌≡◌};
ghost use Rattle.movements.specs.Gathering.{start, with_pair};
ghost use Rattle.movements.specs.Pairs.{lesser, least, after};

use crate::pair::{PAIRS, Pair};

// The pair of the smaller key, with both counts where the keys are equal.
fn lesser(one: Pair, other: Pair) -> Pair
    ensures { result ≡ lesser one other }
{
    if one.key < other.key {
        one
    } else if other.key < one.key {
        other
    } else {
        Pair {
            key: one.key,
            count: one.count.saturating_add(other.count),
        }
    }
}

/// The first pair of two lists as one, by the keys of their first pairs.
pub fn least(left: Option<Pair>, right: Option<Pair>) -> Option<Pair>
    ensures { result ≡ least left right }
{
    match (left, right) {
        (None, _) => right,
        (_, None) => left,
        (Some(one), Some(other)) => Some(lesser(one, other)),
    }
}

/// What is left of a list when the pair of a key was taken: all but its first pair, if that has the key.
pub fn after(pairs: &[Pair], key: u32) -> &[Pair]
    ensures { result.now ≡ after pairs.now key }
{
    match pairs {
        [first, rest @ ..] if first.key == key => rest,
        _ => pairs,
    }
}

/// What a join has gathered so far, from the smallest key on: the first sixteen pairs are kept, and the counts of all others go to the rest.
// A length beside an array: its sixteen places, the unused ones zeros already, are those of the tally that comes of it.
#[derive(Clone, Copy)]
pub struct Gathered {
    pub pairs: [Pair; PAIRS],
    pub used: usize,
    pub rest: u32,
}

impl Gathered {
    /// No pair yet, and two rests as one.
    pub fn start(rest: u32, other: u32) -> Gathered
        ensures { result ≡ start rest other }
    {
        Gathered {
            pairs: [Pair::UNUSED; PAIRS],
            used: 0,
            rest: rest.saturating_add(other),
        }
    }

    /// Takes one more pair.
    pub fn add(&mut self, pair: Pair)
        ensures { self.new ≡ with_pair self.old pair }
    {
        if self.used < PAIRS {
            self.pairs[self.used] = pair;
            self.used += 1;
        } else {
            self.rest = self.rest.saturating_add(pair.count);
        }
    }
}
