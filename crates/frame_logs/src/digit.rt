//! Digits of base sixteen.
ghost use Rattle.std.specs.Prelude.{◌≡◌, ◌+◌, ◌*◌, ◌<◌, IfSome};
ghost use Rattle.frame_logs.specs.Hexadecimal.{digit_of};

/// The digit that a byte of text is, in capital or small letters.
pub fn digit(byte: u8) -> Option<u8>
    ensures value { result ≡ digit_of byte }
    ensures small { IfSome result (λ d. d < 16) }
{
    char::from(byte).to_digit(16).map(|digit| digit as u8)
}
