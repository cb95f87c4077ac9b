//! Dropping the tokens that a frame shows to be dead.
ghost use Rattle.std.specs.Prelude.{◌≡◌};
ghost use Rattle.table.specs.Cells.{keep};
ghost use Rattle.node.specs.Seen.{showing};
ghost use Rattle.node_tokens.specs.Dropping.{lives, living, Drops};

use crate::lookup::slot_of;
use frame::received::Received;
use protocol::records::Token;
use tally::kind::Tally;

// What is left of a place: nothing where it holds a token that the frame shows to be dead.
fn left<K: Tally>(cell: Option<Token<K>>, frame: &Received<'_>) -> Option<Token<K>>
    ensures { result ≡ keep (lives frame.now.sender (showing K.kind frame.now)) cell }
{
    let token = cell?;
    let deadline = slot_of(&frame.slots, token.source).map_or(
        frame.destination_clock,
        |slot| slot.destination_clock,
    );
    if token.destination == frame.sender && token.destination_clock < deadline {
        None
    } else {
        Some(token)
    }
}

/// Drops the tokens that a frame shows to be dead, own or cached.
pub fn drop_dead<K: Tally>(cells: &mut [Option<Token<K>>], frame: &Received<'_>)
    ensures cells { cells.new ≡ living K.kind frame.now cells.old }
    ensures rule { Drops K.kind frame.now }
{
    for cell in cells.iter_mut() {
        *cell = left(*cell, frame);
    }
}
