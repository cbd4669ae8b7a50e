//! Who may move what: each change of a certificate is made by right.
//!
//! `specs/Ways.antt` has a row for each way of a certificate: who may ask for it, and its lot and
//! place before and after. `specs/Authority.antt` says of a list of requests that was answered that
//! a certificate which isn't what it was went such a way, and by whose request one left an account,
//! or came into it. It is a clause of `Registry::run`.

ghost use Rattle.goo_spec_laws.specs.Authority.{OnlyByRight, EachByRight};

/// The law, over every list of requests within their limits, from every sound state.
///
/// - `whole`: from before the list to after it, each certificate is what it was, or an accepted
///   request of the list moved it by right; what left an account's holding was taken out by its
///   holder, by the issuing body or by the date, and what came into it was issued for a device of
///   the account, given by the holder of the account that held it, or imported by a notice to the
///   account.
/// - `each`: request by request, so that no change in between is left out.
pub fn only_by_right()
    ensures whole { OnlyByRight }
    ensures each { EachByRight }
{}
