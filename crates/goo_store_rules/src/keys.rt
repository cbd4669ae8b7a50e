//! Whether a key is one of those that rows have.

ghost use Rattle.std.specs.Prelude.{◌≡◌};
ghost use Rattle.std.specs.BTreeSet.{contains};

use std::collections::BTreeSet;

/// Whether a key is one of a set.
pub fn has<K: Ord + Drop>(set: &BTreeSet<K>, key: &K) -> bool
    ensures { result ≡ contains K.cmp set.now key.now }
{
    set.contains(key)
}
