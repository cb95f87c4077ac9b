ghost use Rattle.std.specs.Prelude.{◌≡◌, ◌<◌, ◌≤◌, length, Some, slice_set};

use crate::coins::{Coin, Mark};
use table::lending::clear_in;
use table::tables::Table;

/// Two tables whose sizes are known.
#[derive(Drop)]
pub struct Memory<'a> {
    pub coins: Table<'a, Coin>,
    pub marks: Table<'a, Mark>,
    ghost sized: { (8 ≤ length coins.cells.now) × (4 ≤ length marks.cells.now) },
}

/// Stores a coin, removes one, and empties a part: the sizes stay known.
pub fn use_coins(memory: &mut Memory<'_>, place: usize, coin: Coin)
    requires { place < 8 }
{
    memory.coins.store(place, coin);
    memory.coins.remove(3);
    clear_in(&mut memory.coins, 4, 4);
    memory.marks.clear();
}

/// Stores a mark in lent memory by a table over it: the memory has it when it comes back.
pub fn store_in(cells: &mut [Option<Mark>], place: usize, mark: Mark)
    requires { place < length cells.old }
    ensures { cells.new ≡ slice_set cells.old place (Some mark) }
{
    let mut table = Table { cells };
    table.store(place, mark);
}
