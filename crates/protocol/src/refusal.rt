//! Why a frame or a call is refused, each reason with its number.
ghost use Rattle.std.specs.Prelude.{◌≡◌};
ghost use Rattle.protocol.specs.Refusals.{condition_number, condition_inside, refusal_number};

/// A condition of a lawful frame.
#[derive(Clone, Copy, PartialEq, Eq, Debug)]
pub enum Condition {
    /// The frame has 17 to 1,836 bytes.
    Length,
    /// The edition is ours.
    Edition,
    /// The kind is ours.
    Kind,
    /// Sender and addressee are two of the nodes, and the tier is one of the tiers.
    Parties,
    /// The byte that says whether the sender holds something is 0 or 1.
    Holding,
    /// The sender's clocks are within the limit.
    Clock,
    /// The counts of slots, tokens and entries are within their limits.
    Counts,
    /// The frame is as long as its counts say.
    CountedLength,
    /// The numbers of an item are nodes' numbers that may stand there, above those before.
    Numbers,
    /// The clocks or the version of an item are within the limit.
    ItemClock,
    /// The tally of an item is lawful; else the number of its own fault.
    Tally(u8),
    /// A server's frame has the sender's entry.
    OwnEntry,
}

/// The first condition that a frame fails, and the place of the field that fails it.
#[derive(Clone, Copy, PartialEq, Eq, Debug)]
pub struct FrameFault {
    pub condition: Condition,
    pub place: usize,
}

/// Why a call is refused.
#[derive(Clone, Copy, PartialEq, Eq, Debug)]
pub enum Refusal {
    /// The tier is above 3.
    Tier,
    /// Sixteen nodes are enrolled.
    NodesFull,
    /// Four servers are enrolled.
    ServersFull,
    /// No such node is enrolled.
    NotEnrolled,
    /// The node has retired.
    Retired,
    /// The tally is empty.
    EmptyTally,
    /// A clock or the version has reached the limit.
    LimitReached,
    /// Sender and addressee are one node.
    SameNode,
    /// No frame waits.
    NoFrame,
    /// A server does not retire.
    Server,
    /// The own value is not empty.
    ValueLeft,
    /// There are own tokens.
    TokensLeft,
    /// There are slots.
    SlotsLeft,
    /// The frame is addressed to another.
    OtherAddressee,
    /// The buffer or the memory is too short.
    TooShort,
    /// The frame is not lawful.
    Frame(FrameFault),
}

// Methods and no `From`: a number forgets the tally's own fault, and the place of a frame's.
impl Condition {
    /// The number by which answers name the condition.
    pub fn number(&self) -> u8
        ensures { result ≡ condition_number self.now }
    {
        match *self {
            Condition::Length => 20,
            Condition::Edition => 21,
            Condition::Kind => 22,
            Condition::Parties => 23,
            Condition::Holding => 24,
            Condition::Clock => 25,
            Condition::Counts => 26,
            Condition::CountedLength => 27,
            Condition::Numbers => 28,
            Condition::ItemClock => 29,
            Condition::Tally(_) => 30,
            Condition::OwnEntry => 31,
        }
    }

    /// The number of the tally's own fault, where that is the reason.
    pub fn inside(&self) -> Option<u8>
        ensures { result ≡ condition_inside self.now }
    {
        match *self {
            Condition::Tally(number) => Some(number),
            _ => None,
        }
    }
}

impl Refusal {
    /// The number by which answers name the refusal.
    pub fn number(&self) -> u8
        ensures { result ≡ refusal_number self.now }
    {
        match *self {
            Refusal::Tier => 1,
            Refusal::NodesFull => 2,
            Refusal::ServersFull => 3,
            Refusal::NotEnrolled => 4,
            Refusal::Retired => 5,
            Refusal::EmptyTally => 6,
            Refusal::LimitReached => 7,
            Refusal::SameNode => 8,
            Refusal::NoFrame => 9,
            Refusal::Server => 10,
            Refusal::ValueLeft => 11,
            Refusal::TokensLeft => 12,
            Refusal::SlotsLeft => 13,
            Refusal::OtherAddressee => 14,
            Refusal::TooShort => 15,
            Refusal::Frame(fault) => fault.condition.number(),
        }
    }
}
