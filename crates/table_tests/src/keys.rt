ghost use Rattle.table_tests.specs.Keys.{by_ends, by_mark};

use crate::coins::{Coin, Ends, Mark};
use table::records::Record;

impl Record for Coin {
    type Key = Ends;

    ghost keyed = { by_ends };

    fn key(&self) -> Ends {
        Ends {
            source: self.source,
            destination: self.destination,
        }
    }

    fn has(&self, key: &Ends) -> bool {
        self.key() == *key
    }

    fn before(one: &Ends, other: &Ends) -> bool {
        one < other
    }
}

impl Record for Mark {
    type Key = u8;

    ghost keyed = { by_mark };

    fn key(&self) -> u8 {
        self.number
    }

    fn has(&self, key: &u8) -> bool {
        self.key() == *key
    }

    fn before(one: &u8, other: &u8) -> bool {
        one < other
    }
}
