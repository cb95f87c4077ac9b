//! Digits in pairs, one after the other, as the bytes that they write.
ghost use Rattle.std.specs.Prelude.{◌≡◌, ◌<◌};
ghost use Rattle.frame_logs.specs.Steps.{begun_by};
ghost use Rattle.frame_logs.specs.Waiting.{waiting};

use crate::digit::digit;
use crate::standing::{NoHexadecimal, Standing};
use arrayvec::ArrayVec;
use protocol::limits::FRAME_BYTES_MAX;

/// So many bytes are kept of a line: one more than the longest frame has, so that a longer line is still known as too long.
pub const KEPT_MAX: usize = FRAME_BYTES_MAX + 1;

/// What the digits of a line have written so far.
#[derive(Drop)]
pub struct Digits {
    bytes: ArrayVec<u8, KEPT_MAX>,
    standing: Standing,
    ghost small: { waiting standing < 16 },
}

// How the digits stand when a byte comes where a pair begins.
fn begun(byte: u8) -> Standing
    ensures { result ≡ begun_by byte }
{
    match digit(byte) {
        Some(first) => Standing::Half(first),
        None => Standing::Broken(byte),
    }
}

impl Digits {
    ghost use Rattle.std.specs.Prelude.{ℕ, List, [], ◌∷◌, ◌++◌, Ok, Err, MatchResult};
    ghost use Rattle.frame_logs.specs.declared.standing.Standing.TheVariants.{Paired};
    ghost use Rattle.frame_logs.specs.Hexadecimal.{decoded};
    ghost use Rattle.frame_logs.specs.Steps.{push, kept_of};
    ghost use Rattle.frame_logs.specs.Held.{seen, Shows};

    /// No digit yet.
    pub fn none() -> Digits
        ensures { Shows result [] }
    {
        Digits {
            bytes: ArrayVec::new(),
            standing: Standing::Paired,
        }
    }

    // Keeps a byte, while there is room.
    #[tactic(auto, using(crate::proofs::Kept::kept_more))]
    fn keep(&mut self, byte: u8)
        ensures { seen self.new ≡ record { bytes = push (seen self.old).bytes byte; standing = Paired } }
    {
        self.standing = Standing::Paired;
        let _ = self.bytes.try_push(byte);
    }

    /// Takes the next byte of the text.
    #[tactic(auto, using(crate::specs::Steps::after_more))]
    pub fn feed(&mut self, byte: u8)
        ensures { (text : List ℕ) → Shows self.old text → Shows self.new (text ++ byte ∷ []) }
    {
        match self.standing {
            Standing::Paired => self.standing = begun(byte),
            Standing::Half(first) => match digit(byte) {
                Some(second) => self.keep(first * 16 + second),
                None => self.standing = Standing::Broken(byte),
            },
            Standing::Broken(_) => {}
        }
    }

    /// The bytes that the text so far writes, as many as are kept, or why it writes none.
    #[tactic(auto, using(crate::proofs::Kept::kept_decoded))]
    pub fn written(&self) -> Result<&[u8], NoHexadecimal>
        ensures { (text : List ℕ) → Shows self.now text → MatchResult result (λ bytes. kept_of (decoded text) ≡ Ok bytes.now) (λ why. kept_of (decoded text) ≡ Err why) }
    {
        match self.standing {
            Standing::Paired => Ok(self.bytes.as_slice()),
            Standing::Half(_) => Err(NoHexadecimal::OddDigits),
            Standing::Broken(byte) => Err(NoHexadecimal::NoDigit(byte)),
        }
    }
}
