//! What is read over HTTP depends on the account and the date alone.
//!
//! `equal_reads` of `goo_registry` says it of the reads, `equal_texts` of `goo_files` of the texts.
//! Here it is said of the responses to the bytes of a request, head and body, by the definition
//! that is the contract of `goo_desk_answers::answer` (`Responds`).
#![tactic(auto)]

ghost use Rattle.goo_desk_independent.specs.Account.{EqualResponses, OthersLeaveResponses};
ghost use Rattle.goo_desk_independent.specs.Holder.{HoldersSeeTheirOwn, OutsideIsUnknown};

/// Of an account, whoever asks.
///
/// - `law`: two sound states that agree on an account (`AgreeOn` of `goo_spec_laws`) answer
///   the same bytes with one status and one text, where these ask for its statement, the document
///   of a cancellation of its certificates, or a notice that it sent; and a certificate whose place
///   names it, to its holder and to the issuing body. A statement has the date in its heading, and
///   that alone differs where dates do;
/// - `others`: so does a registry before and after any list of requests of which the accepted ones
///   name nothing of the account.
pub fn equal_responses()
    ensures law { EqualResponses }
    ensures others { OthersLeaveResponses }
{}

/// To a holder, whatever it asks to be shown.
///
/// - `own`: two states of one date that agree on each account of a holder answer it alike: every
///   statement, certificate, document and notice, and the audit, of its own accounts or of others,
///   be they there or not. So nothing that it can ask to be shown tells it what others have;
/// - `outside`: a certificate in none of its accounts is answered as one that never was.
pub fn own_alone()
    ensures own { HoldersSeeTheirOwn }
    ensures outside { OutsideIsUnknown }
{}
