//! The figures of some lines: the tally of the lengths taken, and how many lines were taken and refused.
ghost use Rattle.std.specs.Prelude.{ℕ, List, [], ◌∷◌, ◌++◌};
ghost use Rattle.observations.specs.Line.{Says};
ghost use Rattle.observations.specs.Figures.{Counts};

use crate::line::LineFault;
use tally::kind::Tally;
use tally::queues::Queues;

/// What some lines came to. Each counter stops at the largest number that it can hold.
#[derive(Clone, Copy)]
pub struct Figures {
    /// The lengths taken, by band.
    pub tally: Queues,
    /// How many lines were taken.
    pub taken: u64,
    /// How many lines were refused.
    pub refused: u64,
}

impl Figures {
    /// The figures of no line.
    pub fn new() -> Figures
        ensures { Counts [] result }
    {
        Figures {
            tally: Queues::empty(),
            taken: 0,
            refused: 0,
        }
    }

    /// Counts one more line, by the answer to it.
    #[tactic(auto, using(crate::proofs::Joining::count_taken, crate::proofs::Joining::count_refused))]
    pub fn count(&mut self, answer: Result<u32, LineFault>)
        ensures { (lines : List (List ℕ)) (line : List ℕ) → Counts lines self.old → Says line answer → Counts (lines ++ line ∷ []) self.new }
    {
        match answer {
            Ok(length) => {
                self.tally.join(&Queues::observed(length));
                self.taken = self.taken.saturating_add(1);
            }
            Err(_) => self.refused = self.refused.saturating_add(1),
        }
    }

    /// Counts the lines of other figures too.
    #[tactic(auto, using(crate::proofs::Joining::counts_together))]
    pub fn join(&mut self, other: &Figures)
        ensures { (lines more : List (List ℕ)) → Counts lines self.old → Counts more other.now → Counts (lines ++ more) self.new }
    {
        self.tally.join(&other.tally);
        self.taken = self.taken.saturating_add(other.taken);
        self.refused = self.refused.saturating_add(other.refused);
    }
}
