/// A coin on its way from one end to the other.
#[derive(Clone, Copy, PartialEq, Eq, Debug)]
pub struct Coin {
    pub source: u8,
    pub destination: u8,
    pub value: u32,
}

/// The key of a coin.
#[derive(Clone, Copy, PartialEq, Eq, PartialOrd, Ord, Debug)]
pub struct Ends {
    pub source: u8,
    pub destination: u8,
}

/// A numbered mark.
#[derive(Clone, Copy, PartialEq, Eq, Debug)]
pub struct Mark {
    pub number: u8,
    pub value: u32,
}
