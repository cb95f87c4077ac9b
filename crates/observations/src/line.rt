//! One line of text, read a byte at a time: the number that it writes, or why it writes none.
ghost use Rattle.std.specs.Prelude.{◌≡◌, ℕ, ◌+◌, ◌*◌, List, [], ◌∷◌, ◌++◌};
ghost use Rattle.observations.specs.Line.{Says};
ghost use Rattle.observations.specs.Reader.{Marks, Has, amount_of, after_blank, after_digit};

use thiserror::Error;

/// Why a line is refused.
#[derive(Clone, Copy, PartialEq, Eq, Debug, Error)]
pub enum LineFault {
    /// The line is not blanks, digits, blanks.
    #[error("not a number")]
    NotANumber,
    /// The digits write a number above the largest length.
    #[error("above 4294967295")]
    TooLarge,
}

/// What a byte is to a line.
#[derive(Clone, Copy)]
enum Mark {
    Blank,
    Digit(u8),
    Other,
}

/// What the bytes of a line are so far. It takes the same room however long the line is.
#[derive(Clone, Copy, PartialEq, Eq, Debug)]
pub enum Line {
    /// Blanks only, or nothing.
    Blanks,
    /// Blanks, then digits, and their number where a length can hold it.
    Digits(Option<u32>),
    /// Blanks, digits, then blanks.
    Closed(Option<u32>),
    /// No line that begins so writes a number.
    Broken,
}

impl From<u8> for Mark {
    ghost from_gives = { Marks };

    fn from(byte: u8) -> Mark {
        match byte {
            b' ' | b'\t' | b'\r' => Mark::Blank,
            b'0'..=b'9' => Mark::Digit(byte - b'0'),
            _ => Mark::Other,
        }
    }
}

// The number with one more digit behind it, where a length can hold it.
fn longer(number: u32, digit: u8) -> Option<u32>
    ensures { result ≡ amount_of (number * 10 + digit) }
{
    u32::try_from(u64::from(number) * 10 + u64::from(digit)).ok()
}

impl Line {
    /// A line of which no byte was taken yet.
    pub fn new() -> Self
        ensures { Has [] result }
    {
        Self::Blanks
    }

    /// Takes the next byte of the line.
    pub fn take(&mut self, byte: u8)
        ensures { (text : List ℕ) → Has text self.old → Has (text ++ byte ∷ []) self.new }
    {
        *self = match Mark::from(byte) {
            Mark::Blank => self.after_blank(),
            Mark::Digit(digit) => self.after_digit(digit),
            Mark::Other => Line::Broken,
        };
    }

    /// The number that the line writes, now that all its bytes are taken.
    #[tactic(auto, using(crate::proofs::Steps::says_answer))]
    pub fn end(&self) -> Result<u32, LineFault>
        ensures { (text : List ℕ) → Has text self.now → Says text result }
    {
        match self {
            Line::Digits(number) | Line::Closed(number) => number.ok_or(LineFault::TooLarge),
            Line::Blanks | Line::Broken => Err(LineFault::NotANumber),
        }
    }

    fn after_blank(self) -> Line
        ensures { result ≡ after_blank self }
    {
        match self {
            Line::Digits(number) => Line::Closed(number),
            _ => self,
        }
    }

    fn after_digit(self, digit: u8) -> Line
        ensures { result ≡ after_digit self digit }
    {
        match self {
            Line::Blanks => Line::Digits(Some(u32::from(digit))),
            Line::Digits(front) => Line::Digits(front.and_then(|number| longer(number, digit))),
            Line::Closed(_) | Line::Broken => Line::Broken,
        }
    }
}
