//! Tokens and entries as records of the keyed table.
ghost use Rattle.protocol.specs.Keys.{by_pair, by_entry};

use crate::records::{Entry, Pair, Token};
use table::records::Record;

impl<K: Copy> Record for Token<K> {
    type Key = Pair;

    ghost keyed = { by_pair };

    fn key(&self) -> Pair {
        Pair {
            source: self.source,
            destination: self.destination,
        }
    }

    fn has(&self, key: &Pair) -> bool {
        self.key() == *key
    }

    fn before(one: &Pair, other: &Pair) -> bool {
        one < other
    }
}

impl<K: Copy> Record for Entry<K> {
    type Key = u8;

    ghost keyed = { by_entry };

    fn key(&self) -> u8 {
        self.number
    }

    fn has(&self, key: &u8) -> bool {
        self.key() == *key
    }

    fn before(one: &u8, other: &u8) -> bool {
        one < other
    }
}
