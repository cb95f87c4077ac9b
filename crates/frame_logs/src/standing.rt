use thiserror::Error;

/// How far the digits of a line have come.
#[derive(Clone, Copy)]
pub enum Standing {
    /// Every digit so far has its pair.
    Paired,
    /// The first digit of a pair stands alone.
    Half(u8),
    /// This byte is no digit; what follows it does not count.
    Broken(u8),
}

/// Why a line writes no bytes.
#[derive(Clone, Copy, PartialEq, Eq, Debug, Error)]
pub enum NoHexadecimal {
    /// The last digit has no pair.
    #[error("an odd number of digits")]
    OddDigits,
    /// This byte, the first of its kind, is no digit.
    #[error("the byte {0:#04x} is no digit")]
    NoDigit(u8),
}
