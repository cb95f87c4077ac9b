//! What a counter says that stops at a largest number.
ghost use Rattle.std.specs.Prelude.{◌≡◌, ℕ, ◌-◌, ◌^◌, min};
ghost use Rattle.bands.specs.Count.{Means, exact};

use std::fmt;

/// A counter that stops at a largest number.
// `number` and no `Into<u64>`: the contract of `Count::of` speaks of the number that is shown.
pub trait Counter: Copy {
    /// Where it stops.
    const STOP: u64;

    ghost STOP: { ℕ };

    ghost number: { Self → ℕ };

    /// The number that it shows.
    fn number(self) -> u64
        ensures { result ≡ number self };
}

impl Counter for u32 {
    const STOP: u64 = u32::MAX as u64;

    ghost STOP = { 2 ^ 32 - 1 };

    ghost number = { λ shown. shown };

    fn number(self) -> u64 {
        u64::from(self)
    }
}

impl Counter for u64 {
    const STOP: u64 = u64::MAX;

    ghost STOP = { 2 ^ 64 - 1 };

    ghost number = { λ shown. shown };

    fn number(self) -> u64 {
        self
    }
}

/// A number that was counted. A counter at its stop says only that there were at least so many.
#[derive(Clone, Copy, PartialEq, Eq, Debug)]
pub enum Count {
    Exact(u64),
    AtLeast(u64),
}

impl fmt::Display for Count {
    fn fmt<W: fmt::Write>(&self, f: &mut fmt::Formatter<W>) -> fmt::Result {
        match self {
            Count::Exact(number) => write!(f, "{number}"),
            Count::AtLeast(number) => write!(f, ">={number}"),
        }
    }
}

impl Count {
    /// What a counter says.
    pub fn of<C: Counter>(counter: C) -> Count
        ensures { (n : ℕ) → C.number counter ≡ min n C.STOP → Means C.STOP n result }
    {
        let number = counter.number();
        if number < C::STOP {
            Count::Exact(number)
        } else {
            Count::AtLeast(number)
        }
    }

    /// Whether the counter had not reached its stop.
    pub fn is_exact(&self) -> bool
        ensures { result ≡ exact self.now }
    {
        matches!(self, Count::Exact(_))
    }
}
