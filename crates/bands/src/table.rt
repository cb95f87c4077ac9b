//! A tally as a table of its bands.
ghost use Rattle.std.specs.Prelude.{◌≡◌, ◌≤◌, MatchOption};
ghost use Rattle.bands.specs.Share.{tenths};
ghost use Rattle.bands.specs.Table.{total_count, TableOf, RowOf};

use crate::bar::Bar;
use crate::bounds::Bounds;
use crate::count::Count;
use crate::share::Share;
use tally::queues::Queues;

/// What a table says of one band.
#[derive(Clone, Copy, PartialEq, Eq, Debug)]
pub struct Row {
    pub bounds: Bounds,
    pub count: Count,
    pub share: Share,
    pub bar: Bar,
}

/// A tally, with what its rows are measured by.
#[derive(Clone, Copy)]
pub struct Table {
    tally: Queues,
    total: u64,
    largest: u32,
}

impl Table {
    /// The table of a tally.
    pub fn of(tally: &Queues) -> Table
        ensures { TableOf tally.now result }
    {
        Table {
            tally: *tally,
            total: tally.counts.iter().map(|count| u64::from(*count)).sum(),
            largest: tally.counts.iter().copied().max().unwrap_or(0),
        }
    }

    /// The sum of all counts, which is a lower bound where a count is at its stop.
    pub fn total(&self) -> Count
        ensures { result ≡ total_count self.now }
    {
        if self.largest < u32::MAX {
            Count::Exact(self.total)
        } else {
            Count::AtLeast(self.total)
        }
    }

    /// The share of the sum in itself: all, or of nothing 0.
    pub fn whole_share(&self) -> Share
        ensures { result.tenths ≡ tenths self.now.total self.now.total }
    {
        Share::of(self.total, self.total)
    }

    /// The row of a band.
    // No iterator over the rows: its type would need ghost members of its own, for the one caller.
    pub fn row(&self, band: usize) -> Option<Row>
        ensures { MatchOption result (16 ≤ band) (RowOf self.now band) }
    {
        let bounds = Bounds::of(band)?;
        let count = self.tally.counts[band];
        Some(Row {
            bounds,
            count: Count::of(count),
            share: Share::of(u64::from(count), self.total),
            bar: Bar::of(count, self.largest),
        })
    }
}
