ghost use Rattle.std.specs.Prelude.{◌≡◌, length};
ghost use Rattle.tally.specs.Kind.{Kind, Lawful, joins};
ghost use Rattle.tally.specs.Totals.{Total, OneWriting};

use crate::fault::Fault;

/// A tally kind. Its meaning is the one value `kind`; `laws` says that the kind is lawful.
pub trait Tally: Copy {
    ghost kind: { Kind Self };

    ghost laws: { Lawful kind };

    /// The byte that names the kind in frames and setups: no enum, since kinds are open.
    fn code() -> u8
        ensures { result ≡ kind.code };

    /// The tally of nothing.
    fn empty() -> Self
        ensures { result ≡ kind.empty };

    /// Both tallies as one.
    fn joined(&self, other: &Self) -> Self
        ensures { result ≡ kind.join self.now other.now };

    /// Joins another tally to this one.
    fn join(&mut self, other: &Self)
        ensures { self.new ≡ kind.join self.old other.now }
    {
        *self = self.joined(other);
    }

    /// Whether this is the tally of nothing.
    fn is_empty(&self) -> bool
        ensures { result ≡ kind.is_empty self.now };

    /// How many bytes every tally of this kind is written in.
    fn width() -> usize
        ensures { result ≡ kind.width };

    /// Writes the tally into the lent part of a buffer, which is as long as the kind is wide.
    fn write(&self, out: &mut [u8])
        requires { length out.old ≡ kind.width }
        ensures { out.new ≡ kind.bytes self.now };

    /// The tally that bytes write, as many as the kind is wide, or their fault.
    fn read(bytes: &[u8]) -> Result<Self, Fault>
        requires { length bytes.now ≡ kind.width }
        ensures { result ≡ kind.read bytes.now };
}

/// All tallies as one; of none, empty.
pub fn joined_all<K: Tally>(tallies: &[K]) -> K
    ensures { result ≡ joins K.kind tallies.now }
{
    let mut total = K::empty();
    for tally in tallies {
        total.join(tally);
    }
    total
}

/// Carries what the laws alone give every kind: no order and no grouping changes a total, and each tally has a writing of its own.
pub fn kind_stands<K: Tally>()
    ensures total { Total K.kind }
    ensures writing { OneWriting K.kind }
{}
