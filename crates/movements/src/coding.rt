ghost use Rattle.std.specs.Prelude.{◌≡◌, ◌<◌, length};
ghost use Rattle.std.specs.Result.{result_err};
ghost use Rattle.std.specs.Option.{option_map};
ghost use Rattle.movements.specs.Coding.{pair_at, pairs_in, with_pair_at, reported};
ghost use Rattle.movements.specs.Faults.{fault_of, first_fault};

use crate::fault::check_pair;
use crate::pair::{PAIRS, Pair};
use big_endian::BigEndian;
use std::array;
use tally::fault::Fault;

/// The sixteen pairs that bytes write.
pub fn pairs_in(bytes: &[u8]) -> [Pair; PAIRS]
    requires { length bytes.now ≡ 132 }
    ensures { result ≡ pairs_in bytes.now }
{
    array::from_fn(|index| Pair {
        key: u32::read_at(bytes, 8 * index),
        count: u32::read_at(bytes, 8 * index + 4),
    })
}

/// Writes one of the sixteen pairs, the key before the count; the other bytes stay.
pub fn put_pair(out: &mut [u8], index: usize, pair: Pair)
    requires width { length out.old ≡ 132 }
    requires within { index < 16 }
    ensures { out.new ≡ with_pair_at out.old index pair }
{
    pair.key.write_at(out, 8 * index);
    pair.count.write_at(out, 8 * index + 4);
}

// Asks a pair, and reports its fault.
fn check_at(index: usize, pair: Pair, before: Option<Pair>) -> Result<(), Fault>
    requires { index < 16 }
    ensures { result_err result ≡ option_map (λ f. reported (record { pair = index; fault = f })) (fault_of pair before) }
{
    check_pair(pair, before).map_err(|fault| Fault {
        number: fault.number(),
        place: 8 * index,
    })
}

/// Asks each pair in turn, and reports the first fault.
pub fn check_pairs(pairs: &[Pair; PAIRS]) -> Result<(), Fault>
    ensures { result_err result ≡ option_map reported (first_fault pairs.now) }
{
    let mut before = None;
    for (index, pair) in pairs.iter().enumerate() {
        check_at(index, *pair, before)?;
        before = Some(*pair);
    }
    Ok(())
}
