//! Tokens as items of a frame.
ghost use Rattle.std.specs.Prelude.{◌≡◌, Bool};
ghost use Rattle.frame_items.specs.Items.{tokens, pair_rank, pair_after, tokens_sound};
ghost use Rattle.std.proofs.Common.{rules};

use crate::item::Item;
use crate::require::require;
use crate::tallies::{check_tally, tally_shown, write_tally};
use big_endian::BigEndian;
use protocol::limits::{CLOCK_MAX, NODES_MAX};
use protocol::records::Token;
use protocol::refusal::{Condition, FrameFault};
use tally::kind::Tally;

// The rank of a token: its source counts first.
fn pair_rank(source: u8, destination: u8) -> u16
    ensures { result ≡ pair_rank source destination }
{
    u16::from(source) * 256 + u16::from(destination)
}

// Whether a token of this pair may stand after a rank.
fn pair_may_follow(before: u16, source: u8, destination: u8) -> bool
    ensures { result ≡ pair_after before source destination }
{
    1 <= source
        && source <= NODES_MAX
        && 1 <= destination
        && destination <= NODES_MAX
        && source != destination
        && before < pair_rank(source, destination)
}

impl<K: Tally> Item for Token<K> {
    ghost format = { λ _. tokens K.Tally.kind };

    ghost wide = { Prim.search rules };

    ghost long = { (tokens_sound K.Tally.kind K.Tally.laws).long };

    fn width() -> usize {
        10 + K::width()
    }

    fn rank(bytes: &[u8]) -> u16 {
        pair_rank(bytes[0], bytes[1])
    }

    fn check(bytes: &[u8], _sender: u8, before: u16, place: usize) -> Result<(), FrameFault> {
        let may_follow = pair_may_follow(before, bytes[0], bytes[1]);
        require(may_follow, Condition::Numbers, place)?;
        let source_within = u32::read_at(bytes, 2) <= CLOCK_MAX;
        require(source_within, Condition::ItemClock, place + 2)?;
        let destination_within = u32::read_at(bytes, 6) <= CLOCK_MAX;
        require(destination_within, Condition::ItemClock, place + 6)?;
        check_tally::<K>(&bytes[10..], place + 10)
    }

    fn shown(bytes: &[u8]) -> Token<K> {
        Token {
            source: bytes[0],
            destination: bytes[1],
            source_clock: u32::read_at(bytes, 2),
            destination_clock: u32::read_at(bytes, 6),
            tally: tally_shown::<K>(&bytes[10..]),
        }
    }

    fn write(&self, out: &mut [u8]) {
        out[0] = self.source;
        out[1] = self.destination;
        self.source_clock.write_at(out, 2);
        self.destination_clock.write_at(out, 6);
        write_tally(&self.tally, out, 10);
    }
}
