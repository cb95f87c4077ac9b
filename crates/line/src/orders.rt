//! What the rules of the lines give over whole sessions.
ghost use Rattle.line.specs.BoardOrder.{BoardOrder};
ghost use Rattle.line.specs.QueueOrder.{QueueOrder};
ghost use Rattle.line.specs.Session.{InventsNothing};

use crate::interface::Line;

/// Carries what honesty alone gives every line: what it gives waited at the start or was put since.
pub fn invents_nothing<L: Line>()
    ensures { InventsNothing L.conduct }
{}

/// Carries the order of the queue: first in, first out, and lost only at a wrong length or when eight wait.
pub fn queue_order()
    ensures { QueueOrder }
{}

/// Carries the turns of the board: the latest frame of each sender, in the round after the last one given.
pub fn board_order()
    ensures { BoardOrder }
{}
