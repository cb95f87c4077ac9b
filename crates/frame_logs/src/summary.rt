//! The summary of a log: what its lines showed, counted in constant memory. Each count stops at the largest number, which stands for itself and all above.
ghost use Rattle.std.specs.Prelude.{◌≡◌, ◌&&◌, if◌then◌else◌, nat_le, None, slice_index, slice_index_or};
ghost use Rattle.protocol.specs.Refusals.{condition_number};
ghost use Rattle.frame_logs.specs.Counts.{count_between};
ghost use Rattle.frame_logs.specs.Runs.{HighestStands, PairsStand};
ghost use Rattle.frame_logs.specs.Summaries.{blank, with_frame, with_token, with_refusal, with_no_hexadecimal};

use crate::counts::{Clocks, count_one, raise};
use protocol::limits::NODES_MAX;
use protocol::refusal::Condition;

/// Places for the numbers of conditions.
const CONDITIONS: usize = 32;

/// Places for the numbers of nodes; no node has the first.
const NUMBERS: usize = NODES_MAX as usize + 1;

/// What the lines of a log showed so far.
#[derive(Clone, Copy)]
pub struct Summary {
    /// How many lines were lawful frames.
    pub frames: u64,
    /// How many lines wrote no bytes in hexadecimal.
    pub no_hexadecimal: u64,
    refused: [u64; CONDITIONS],
    senders: [Option<Clocks>; NUMBERS],
    // For each source, a count for each destination.
    tokens: [[u64; NUMBERS]; NUMBERS],
}

impl Summary {
    /// Of no line.
    pub fn blank() -> Summary
        ensures { result ≡ blank }
    {
        Summary {
            frames: 0,
            no_hexadecimal: 0,
            refused: [0; CONDITIONS],
            senders: [None; NUMBERS],
            tokens: [[0; NUMBERS]; NUMBERS],
        }
    }

    /// Counts a frame, and notes its sender's clocks.
    #[tactic(auto, using(crate::specs::Runs::highest_stands))]
    pub fn add_frame(&mut self, sender: u8, clocks: Clocks)
        ensures after { self.new ≡ with_frame self.old sender clocks }
        ensures stand { HighestStands }
    {
        self.frames = self.frames.saturating_add(1);
        raise(&mut self.senders, usize::from(sender), clocks);
    }

    /// Counts a token that a frame showed.
    #[tactic(auto, using(crate::specs::Runs::pairs_stand))]
    pub fn add_token(&mut self, source: u8, destination: u8)
        ensures after { self.new ≡ with_token self.old source destination }
        ensures stand { PairsStand }
    {
        if source <= NODES_MAX && destination <= NODES_MAX {
            count_one(
                &mut self.tokens[usize::from(source)],
                usize::from(destination),
            );
        }
    }

    /// Counts a refused frame.
    pub fn add_refusal(&mut self, condition: &Condition)
        ensures { self.new ≡ with_refusal self.old (condition_number condition.now) }
    {
        count_one(&mut self.refused, usize::from(condition.number()));
    }

    /// Counts a line that wrote no bytes in hexadecimal.
    pub fn add_no_hexadecimal(&mut self)
        ensures { self.new ≡ with_no_hexadecimal self.old }
    {
        self.no_hexadecimal = self.no_hexadecimal.saturating_add(1);
    }

    /// How many frames were refused by a condition.
    pub fn refusals(&self, condition: &Condition) -> u64
        ensures { result ≡ slice_index self.now.refused (condition_number condition.now) }
    {
        self.refusals_numbered(condition.number())
    }

    /// How many frames were refused by the condition of a number, as answers print it; by a number that no condition has, none.
    pub fn refusals_numbered(&self, number: u8) -> u64
        ensures { result ≡ slice_index self.now.refused number }
    {
        self.refused.get(usize::from(number)).copied().unwrap_or(0)
    }

    /// The highest clocks of a sender, if a frame of it was seen.
    pub fn highest_of(&self, sender: u8) -> Option<Clocks>
        ensures { result ≡ slice_index_or self.now.senders sender None }
    {
        self.senders.get(usize::from(sender)).copied().flatten()
    }

    /// How many frames showed a token from a source to a destination.
    pub fn tokens_between(&self, source: u8, destination: u8) -> u64
        ensures { result ≡ (if nat_le source 16 && nat_le destination 16 then count_between self.now.tokens source destination else 0) }
    {
        // Asked for themselves: how long the rows are, no caller can see.
        if source > NODES_MAX || destination > NODES_MAX {
            return 0;
        }
        self.tokens
            .get(usize::from(source))
            .and_then(|row| row.get(usize::from(destination)))
            .copied()
            .unwrap_or(0)
    }
}
