//! The kind `queues`: sixteen counts, one for each band of queue lengths.
mod banded;

ghost use Rattle.std.specs.Prelude.{◌≡◌, ℕ, ◌+◌, ◌<◌, nat_le, slice_index};
ghost use Rattle.tally.specs.Queues.{stop, by_band, queues, queues_lawful, band_of, one_in, observed_queue, count_in, LastBand};

use crate::fault::Fault;
use crate::kind::Tally;
pub use banded::Queues;
use big_endian::BigEndian;
use std::array;

/// The lower edges of the bands, in vehicles.
pub const EDGES: [u32; 16] = [0, 1, 2, 3, 4, 5, 6, 8, 10, 13, 16, 20, 25, 32, 40, 50];

/// The band of a queue of so many vehicles: the last whose edge is at most that.
#[tactic(auto, using(crate::proofs::Counts::short_band))]
pub fn band(length: u32) -> usize
    ensures value { result ≡ band_of length }
    ensures last { LastBand length result }
{
    // The first edges are 0 to 6, and most queues are short.
    if length <= 6 {
        return length as usize;
    }
    EDGES.partition_point(
        |edge|
            ensures { result ≡ nat_le edge.now length }
        { *edge <= length },
    ) - 1
}

impl Queues {
    /// The tally with these counts, one for each band.
    // No `From`: the name says what is made, and its contract stands at each call.
    pub fn of(counts: [u32; 16]) -> Queues
        ensures counts { result.counts ≡ counts }
        ensures only { (f : ℕ → ℕ) → ((band : ℕ) → band < 16 → slice_index counts band ≡ stop (f band)) → result ≡ by_band f }
    {
        Queues { counts }
    }

    /// The tally of one observed queue of so many vehicles.
    pub fn observed(length: u32) -> Queues
        ensures { result ≡ observed_queue length }
    {
        Queues::one_in(band(length))
    }

    // The tally of one in a band.
    fn one_in(band: usize) -> Queues
        requires { band < 16 }
        ensures { result ≡ one_in band }
    {
        let mut counts = [0; 16];
        counts[band] = 1;
        Queues::of(counts)
    }
}

impl Tally for Queues {
    ghost kind = { queues };

    ghost laws = { queues_lawful };

    fn code() -> u8 {
        2
    }

    fn empty() -> Queues {
        Queues::of([0; 16])
    }

    fn joined(&self, other: &Queues) -> Queues {
        Queues::of(array::from_fn(
            |band|
                requires { band < 16 }
                ensures { result ≡ stop (count_in self.entry.now band + count_in other.entry.now band) }
            { self.counts[band].saturating_add(other.counts[band]) },
        ))
    }

    fn is_empty(&self) -> bool {
        self.counts.iter().all(|count| *count == 0)
    }

    fn width() -> usize {
        64
    }

    fn write(&self, out: &mut [u8]) {
        for (band, count) in self.counts.iter().enumerate() {
            count.write_at(out, 4 * band);
        }
    }

    fn read(bytes: &[u8]) -> Result<Queues, Fault> {
        Ok(Queues::of(array::from_fn(|band| u32::read_at(bytes, 4 * band))))
    }
}
