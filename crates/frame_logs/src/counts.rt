//! Rows of counts, and highest clocks.
ghost use Rattle.std.specs.Prelude.{◌≡◌};
ghost use Rattle.frame_logs.specs.Counts.{one_more, highest, raised};
ghost use Rattle.frame_logs.specs.Runs.{CountsStand, HighestStands};

/// A source clock and a destination clock, the highest that were seen.
// No `Slot`: that is a promise which was made once, with both clocks of one moment.
#[derive(Clone, Copy, PartialEq, Eq, Debug)]
pub struct Clocks {
    pub source: u32,
    pub destination: u32,
}

/// Counts one more at an index, where the row has it; the largest number stands for itself and all above. (It tests the index, since a proof learns nothing of what is written through a slice's `get_mut`.)
#[tactic(auto, using(crate::specs::Runs::counts_stand))]
pub fn count_one(row: &mut [u64], index: usize)
    ensures after { row.new ≡ one_more row.old index }
    ensures stand { CountsStand }
{
    if index < row.len() {
        row[index] = row[index].saturating_add(1);
    }
}

/// The higher source clock and the higher destination clock.
pub fn higher(before: Option<Clocks>, clocks: Clocks) -> Clocks
    ensures { result ≡ highest before clocks }
{
    match before {
        None => clocks,
        Some(known) => Clocks {
            source: known.source.max(clocks.source),
            destination: known.destination.max(clocks.destination),
        },
    }
}

/// Raises the clocks at an index to these, where the row has it and they are higher. (No generic function with `count_one`: its contract would speak of the calls of a closure.)
#[tactic(auto, using(crate::specs::Runs::highest_stands))]
pub fn raise(row: &mut [Option<Clocks>], index: usize, clocks: Clocks)
    ensures after { row.new ≡ raised row.old index clocks }
    ensures stand { HighestStands }
{
    if index < row.len() {
        row[index] = Some(higher(row[index], clocks));
    }
}
