//! A line of a log, taken byte by byte in constant memory.
ghost use Rattle.std.specs.Prelude.{◌≡◌, ℕ, List, [], ◌∷◌, ◌++◌, Ok, Err, MatchResult};
ghost use Rattle.frame_logs.specs.Held.{Shows};
ghost use Rattle.frame_logs.specs.Lines.{Holds, line_bytes};
ghost use Rattle.frame_logs.specs.Writing.{ReadBack};

use crate::digits::Digits;
use crate::standing::NoHexadecimal;

const RETURN: u8 = b'\r';

/// A line as far as it has come. A carriage return waits, since it belongs to the text only where something follows it.
#[derive(Drop)]
pub struct Line {
    digits: Digits,
    returned: bool,
}

impl Line {
    /// A line with nothing on it.
    pub fn empty() -> Line
        ensures { Holds result [] }
    {
        Line {
            digits: Digits::none(),
            returned: false,
        }
    }

    // A return that waited belongs to the text, now that something follows it.
    #[tactic(auto, using(crate::specs::Text::whole, crate::specs::Text::rejoined))]
    fn settle(&mut self)
        ensures { (text : List ℕ) → Holds self.old text → Shows self.new.digits text }
    {
        if self.returned {
            self.digits.feed(RETURN);
        }
    }

    /// Takes the next byte of the line.
    #[tactic(auto, using(crate::specs::Text::trimmed_more, crate::specs::Text::ends_more))]
    pub fn take(&mut self, byte: u8)
        ensures { (text : List ℕ) → Holds self.old text → Holds self.new (text ++ byte ∷ []) }
    {
        self.settle();
        self.returned = byte == RETURN;
        if !self.returned {
            self.digits.feed(byte);
        }
    }

    /// The bytes that the line writes, none if it is blank; or why it writes none.
    #[tactic(auto, using(crate::specs::Writing::read_back))]
    pub fn bytes(&self) -> Result<&[u8], NoHexadecimal>
        ensures written { (text : List ℕ) → Holds self.now text → MatchResult result (λ bytes. line_bytes text ≡ Ok bytes.now) (λ why. line_bytes text ≡ Err why) }
        ensures back { ReadBack }
    {
        self.digits.written()
    }
}
