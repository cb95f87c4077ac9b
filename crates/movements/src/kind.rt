ghost use Rattle.std.specs.Prelude.{◌≡◌, ◌==◌, position};
ghost use Rattle.movements.specs.Kind.{movements, movements_lawful};
ghost use Rattle.movements.specs.Pairs.{used};

use crate::coding::{check_pairs, pairs_in, put_pair};
use crate::join::{Gathered, after, least};
use crate::kept::Movements;
use crate::pair::{PAIRS, Pair};
use big_endian::BigEndian;
use tally::fault::Fault;
use tally::kind::Tally;

impl Movements {
    // The index of the first unused pair.
    fn first_unused(&self) -> Option<usize>
        ensures { result ≡ position (λ p. p.key == 0) self.now.pairs }
    {
        self.pairs.iter().position(|pair| pair.key == 0)
    }

    /// The used pairs.
    fn used(&self) -> &[Pair]
        ensures { result.now ≡ used self.now.pairs }
    {
        &self.pairs[..self.first_unused().unwrap_or(PAIRS)]
    }
}

impl Tally for Movements {
    ghost kind = { movements };

    ghost laws = { movements_lawful };

    fn code() -> u8 {
        3
    }

    fn empty() -> Movements {
        Movements {
            pairs: [Pair::UNUSED; PAIRS],
            rest: 0,
        }
    }

    fn joined(&self, other: &Movements) -> Movements {
        let mut gathered = Gathered::start(self.rest, other.rest);
        let mut left = self.used();
        let mut right = other.used();
        while let Some(next) = least(left.first().copied(), right.first().copied()) {
            left = after(left, next.key);
            right = after(right, next.key);
            gathered.add(next);
        }
        Movements {
            pairs: gathered.pairs,
            rest: gathered.rest,
        }
    }

    fn is_empty(&self) -> bool {
        self.pairs[0].key == 0 && self.rest == 0
    }

    fn width() -> usize {
        132
    }

    fn write(&self, out: &mut [u8]) {
        for (i, pair) in self.pairs.iter().enumerate() {
            put_pair(out, i, *pair);
        }
        self.rest.write_at(out, 128);
    }

    fn read(bytes: &[u8]) -> Result<Movements, Fault> {
        let pairs = pairs_in(bytes);
        check_pairs(&pairs)?;
        Ok(Movements {
            pairs,
            rest: u32::read_at(bytes, 128),
        })
    }
}
