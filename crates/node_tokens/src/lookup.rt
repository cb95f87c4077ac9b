//! Looking up a slot in the list of a frame.
ghost use Rattle.std.specs.Prelude.{◌≡◌};
ghost use Rattle.frame_items.specs.Format.{row_of};
ghost use Rattle.frame_items.specs.Items.{slots as slot_format};
ghost use Rattle.handoff.specs.Showing.{slot_in};

use frame::received::Part;
use protocol::records::{Slot, SourceSlot};

/// The slot of a source in the slots of a frame.
pub fn slot_of(slots: &Part<'_>, source: u8) -> Option<Slot>
    ensures { result ≡ slot_in (row_of (slot_format 0) slots.now.bytes.now) source }
{
    slots
        .items::<SourceSlot>()
        .find(|item| item.source == source)
        .map(|item| item.slot)
}
