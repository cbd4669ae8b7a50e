//! What the reads of an account depend on.
ghost use Rattle.goo_registry.specs.Alike.{EqualReads};

/// Two sound states that agree on an account (its row, the certificates whose place names it, its
/// cancellations and its notices) give every caller equal answers to every read of the account: the
/// heading where they have one date, the holdings, each run, its cancellations and notices, and to
/// those who may see the account each of its certificates.
pub fn equal_reads()
    ensures { EqualReads }
{}
