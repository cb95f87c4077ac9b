//! Slots by number, and the two steps that drop and make one.
ghost use Rattle.std.specs.Prelude.{◌≡◌, ℕ, ◌<◌, ◌≤◌};
ghost use Rattle.protocol.specs.Limits.{clock_max};
ghost use Rattle.handoff.specs.Node.{put};
ghost use Rattle.handoff.specs.Taking.{drop_slot, make_slot};
ghost use Rattle.node.specs.Seen.{by_number, showing, IsNumber};
ghost use Rattle.node.specs.Slotted.{Slotted};

use crate::numbers::{Node, Slots};
use frame::received::Received;
use protocol::records::Slot;
use tally::kind::Tally;

impl Slots {
    /// The slot for a number, if it has one.
    pub fn get(&self, number: u8) -> Option<Slot>
        ensures { result ≡ by_number self.now.places number }
    {
        *self.places.get(usize::from(number).checked_sub(1)?)?
    }

    /// Sets or removes the slot for a number.
    pub fn put(&mut self, number: u8, slot: Option<Slot>)
        requires { IsNumber number }
        ensures { by_number self.new.places ≡ put (by_number self.old.places) number slot }
    {
        self.places[usize::from(number) - 1] = slot;
    }
}

/// Drops the slot for the sender of a frame, if it is outdated.
pub fn drop_slot<K: Tally>(node: &mut Node, frame: &Received<'_>)
    ensures rule { Slotted (drop_slot frame.now.sender (showing K.kind frame.now)) node.old node.new }
    ensures clocks { (node.new.source_clock ≡ node.old.source_clock) × (node.new.destination_clock ≡ node.old.destination_clock) }
{
    let Some(slot) = node.slots.get(frame.sender) else {
        return;
    };
    if slot.source_clock < frame.source_clock {
        node.slots.put(frame.sender, None);
    }
}

/// Makes a slot for the sender of a frame, if it is of a higher tier and holds something.
pub fn make_slot<K: Tally>(node: &mut Node, frame: &Received<'_>)
    requires sender { IsNumber frame.now.sender }
    requires limit { node.old.destination_clock < clock_max }
    ensures rule { Slotted (make_slot frame.now.sender (showing K.kind frame.now)) node.old node.new }
    ensures clock { node.new.source_clock ≡ node.old.source_clock }
{
    if node.tier >= frame.tier {
        return;
    }
    if !frame.holds {
        return;
    }
    if node.slots.get(frame.sender).is_some() {
        return;
    }
    let slot = Slot {
        source_clock: frame.source_clock,
        destination_clock: node.destination_clock,
    };
    node.slots.put(frame.sender, Some(slot));
    node.destination_clock += 1;
}
