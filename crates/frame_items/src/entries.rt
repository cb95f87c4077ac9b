//! Entries as items of a frame.
ghost use Rattle.std.specs.Prelude.{◌≡◌};
ghost use Rattle.frame_items.specs.Items.{entries, entries_sound};
ghost use Rattle.std.proofs.Common.{rules};

use crate::item::Item;
use crate::require::require;
use crate::tallies::{check_tally, tally_shown, write_tally};
use big_endian::BigEndian;
use protocol::limits::{CLOCK_MAX, NODES_MAX};
use protocol::records::Entry;
use protocol::refusal::{Condition, FrameFault};
use tally::kind::Tally;

impl<K: Tally> Item for Entry<K> {
    ghost format = { λ _. entries K.Tally.kind };

    ghost wide = { Prim.search rules };

    ghost long = { (entries_sound K.Tally.kind K.Tally.laws).long };

    fn width() -> usize {
        5 + K::width()
    }

    fn rank(bytes: &[u8]) -> u16 {
        u16::from(bytes[0])
    }

    fn check(bytes: &[u8], _sender: u8, before: u16, place: usize) -> Result<(), FrameFault> {
        let number = bytes[0];
        let may_follow = before < u16::from(number) && number <= NODES_MAX;
        require(may_follow, Condition::Numbers, place)?;
        let version_within = u32::read_at(bytes, 1) <= CLOCK_MAX;
        require(version_within, Condition::ItemClock, place + 1)?;
        check_tally::<K>(&bytes[5..], place + 5)
    }

    fn shown(bytes: &[u8]) -> Entry<K> {
        Entry {
            number: bytes[0],
            version: u32::read_at(bytes, 1),
            tally: tally_shown::<K>(&bytes[5..]),
        }
    }

    fn write(&self, out: &mut [u8]) {
        out[0] = self.number;
        self.version.write_at(out, 1);
        write_tally(&self.tally, out, 5);
    }
}
