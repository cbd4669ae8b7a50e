//! What others do to an account: nothing.
//!
//! `specs/Naming.antt` says what a command names of an account: the account, a device of it, or a
//! certificate whose place names it. `specs/Independent.antt` says of a list of requests that was
//! answered that an account of which no accepted request names anything is as the date alone makes
//! it. It is a clause of `Registry::run`. That all which is read of an account hangs on what agrees
//! then is the law `equal_reads` of `goo_registry`, and `equal_texts` of `goo_files`.

ghost use Rattle.goo_spec_laws.specs.Independent.{OthersLeaveItAlone};

/// The law, over every list of requests within their limits, from every sound state.
pub fn independent()
    ensures { OthersLeaveItAlone }
{}
