ghost use Rattle.std.specs.Prelude.{◌≡◌};
ghost use Rattle.movements.specs.One.{used_pair, OfOne};

use crate::kept::Movements;
use crate::pair::{PAIRS, Pair};

/// A used pair. There is none where the key or the count is 0.
fn used_pair(key: u32, count: u32) -> Option<Pair>
    ensures { result ≡ used_pair key count }
{
    if key == 0 || count == 0 {
        return None;
    }
    Some(Pair { key, count })
}

impl Movements {
    /// The tally of one pair. There is none where the key or the count is 0.
    pub fn of_one(key: u32, count: u32) -> Option<Movements>
        ensures { OfOne key count result }
    {
        let pair = used_pair(key, count)?;
        let mut pairs = [Pair::UNUSED; PAIRS];
        pairs[0] = pair;
        Some(Movements { pairs, rest: 0 })
    }
}
