ghost use Rattle.std.specs.Prelude.{◌≡◌};
ghost use Rattle.table.specs.Cells.{Keyed};

/// A record that a table can hold: it has a key, and keys have an order. (A key need not be `Ord`: where its derived order is the one that is meant, the two tests are one line each.)
pub trait Record: Copy {
    type Key: Copy;

    ghost keyed: { Keyed Self Self.Key };

    /// The key of this record.
    fn key(&self) -> Self::Key
        ensures { result ≡ keyed.key self.now };

    /// Whether this record has the key.
    fn has(&self, key: &Self::Key) -> bool
        ensures { result ≡ keyed.alike key.now (keyed.key self.now) };

    /// Whether one key comes before another.
    fn before(one: &Self::Key, other: &Self::Key) -> bool
        ensures { result ≡ keyed.before one.now other.now };
}
