//! The search for the least key above a given one.
ghost use Rattle.std.specs.Prelude.{◌≡◌};
ghost use Rattle.table.specs.Order.{above, lesser, least_above};

use crate::records::Record;

// Whether a key is above the last one; where there is none, every key is.
fn is_above<R: Record>(key: &R::Key, last: Option<R::Key>) -> bool
    ensures { result ≡ above R.keyed last key.now }
{
    last.is_none_or(|last| R::before(&last, key))
}

// Of two keys the lesser.
fn lesser<R: Record>(one: R::Key, other: R::Key) -> R::Key
    ensures { result ≡ lesser R.keyed one other }
{
    if R::before(&other, &one) { other } else { one }
}

// The least key above the last one.
pub(crate) fn least_above<R: Record>(cells: &[Option<R>], last: Option<R::Key>) -> Option<R::Key>
    ensures { result ≡ least_above R.keyed cells.now last }
{
    cells
        .iter()
        .flatten()
        .map(|record| record.key())
        .filter(|key| is_above::<R>(key, last))
        .reduce(|one, other| lesser::<R>(one, other))
}
