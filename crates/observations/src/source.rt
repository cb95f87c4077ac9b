//! One source of lines, read a byte at a time in the same room however long it is.
ghost use Rattle.std.specs.Prelude.{◌≡◌, ℕ, List, [], ◌∷◌, ◌++◌, Some};
ghost use Rattle.observations.specs.Reader.{Has};
ghost use Rattle.observations.specs.Source.{InHand, SoFar, Answered, Kept, LineEnded, Finished};

use crate::figures::Figures;
use crate::line::{Line, LineFault};

const NEWLINE: u8 = b'\n';

/// A line that was refused: its number, from 1, and why.
#[derive(Clone, Copy, PartialEq, Eq, Debug)]
pub struct RefusedLine {
    pub number: u64,
    pub fault: LineFault,
}

/// What was read of a source so far.
#[derive(Clone, Copy)]
pub struct Source {
    /// The figures of the lines that ended.
    figures: Figures,
    /// How many lines ended.
    ended: u64,
    /// The line in hand, where it has a byte.
    line: Option<Line>,
}

impl Source {
    /// A source of which nothing was read.
    pub fn new() -> Source
        ensures { SoFar [] result }
    {
        Source {
            figures: Figures::new(),
            ended: 0,
            line: None,
        }
    }

    /// Takes the next byte. A newline ends the line, which is given back where it is refused.
    // An `Option`, here and below: most bytes end no line, and a line that is refused is no failure of the source.
    pub fn take(&mut self, byte: u8) -> Option<RefusedLine>
        ensures { (text : List ℕ) → SoFar text self.old → SoFar (text ++ byte ∷ []) self.new × Answered text byte result }
    {
        if byte == NEWLINE {
            let line = self.line.take().unwrap_or(Line::new());
            return self.end_line(line);
        }
        self.add(byte);
        None
    }

    /// Ends the last line, where it has a byte and no newline.
    pub fn finish(&mut self) -> Option<RefusedLine>
        ensures { (text : List ℕ) → SoFar text self.old → Finished text self.new result }
    {
        let line = self.line.take()?;
        self.end_line(line)
    }

    /// The figures of the lines that ended.
    pub fn figures(&self) -> Figures
        ensures { result ≡ self.now.figures }
    {
        self.figures
    }

    /// How many lines ended.
    pub fn ended(&self) -> u64
        ensures { result ≡ self.now.ended }
    {
        self.ended
    }

    // Adds a byte to the line in hand.
    fn add(&mut self, byte: u8)
        ensures rest { Kept self.old self.new }
        ensures line { (rest : List ℕ) (line : Line) → InHand rest self.old.line → self.new.line ≡ Some line → Has (rest ++ byte ∷ []) line }
    {
        self.line.get_or_insert(Line::new()).take(byte);
    }

    // Counts a line that ended. Inlined, as a call would copy each line, and most are short.
    #[inline(always)]
    fn end_line(&mut self, line: Line) -> Option<RefusedLine>
        ensures { (lines : List (List ℕ)) (rest : List ℕ) → LineEnded lines rest line self.old self.new result }
    {
        let answer = line.end();
        self.figures.count(answer);
        self.ended = self.ended.saturating_add(1);
        let number = self.ended;
        answer.err().map(|fault| RefusedLine { number, fault })
    }
}
