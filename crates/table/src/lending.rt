//! Tables over a part of a larger memory.
ghost use Rattle.std.specs.Prelude.{◌≡◌, ◌+◌, ◌≤◌, length, replicate, None};
ghost use Rattle.table.specs.Changes.{Kept};
ghost use Rattle.table.specs.Parts.{PartBecame};

use crate::records::Record;
use crate::tables::Table;

/// Empties a part of a table: `count` places from `start` on. The other places stay.
pub fn clear_in<R: Record>(table: &mut Table<'_, R>, start: usize, count: usize)
    requires { start + count ≤ length table.old.cells.now }
    ensures cells { PartBecame start count table.old.cells.now table.new.cells.now (replicate count None) }
    ensures kept { Kept table.old.cells table.new.cells }
{
    table.cells[start..start + count].fill(None);
}
