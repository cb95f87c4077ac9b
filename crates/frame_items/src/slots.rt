//! Slots as items of a frame.
ghost use Rattle.std.specs.Prelude.{◌≡◌};
ghost use Rattle.frame_items.specs.Items.{slots};
ghost use Rattle.std.proofs.Common.{rules};

use crate::item::Item;
use crate::require::require;
use big_endian::BigEndian;
use protocol::limits::{CLOCK_MAX, NODES_MAX};
use protocol::records::{Slot, SourceSlot};
use protocol::refusal::{Condition, FrameFault};

impl Item for SourceSlot {
    ghost format = { slots };

    ghost wide = { Prim.search rules };

    ghost long = { Prim.search rules };

    fn width() -> usize {
        9
    }

    fn rank(bytes: &[u8]) -> u16 {
        u16::from(bytes[0])
    }

    fn check(bytes: &[u8], sender: u8, before: u16, place: usize) -> Result<(), FrameFault> {
        let source = bytes[0];
        let may_follow = before < u16::from(source) && source <= NODES_MAX && source != sender;
        require(may_follow, Condition::Numbers, place)?;
        let source_within = u32::read_at(bytes, 1) <= CLOCK_MAX;
        require(source_within, Condition::ItemClock, place + 1)?;
        let destination_within = u32::read_at(bytes, 5) <= CLOCK_MAX;
        require(destination_within, Condition::ItemClock, place + 5)
    }

    fn shown(bytes: &[u8]) -> SourceSlot {
        SourceSlot {
            source: bytes[0],
            slot: Slot {
                source_clock: u32::read_at(bytes, 1),
                destination_clock: u32::read_at(bytes, 5),
            },
        }
    }

    fn write(&self, out: &mut [u8]) {
        out[0] = self.source;
        self.slot.source_clock.write_at(out, 1);
        self.slot.destination_clock.write_at(out, 5);
    }
}
