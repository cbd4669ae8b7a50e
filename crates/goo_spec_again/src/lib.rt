//! Lists of requests that are sent again from their first request on: laws from every state.
//!
//! Whoever lost the answers to a list, or to a part of it, sends all of it again. `specs/Whole.antt`
//! says when that is as though the list had been sent once. It is of every list of declarations, so
//! of every table of them, and of every other list of which what was refused is refused again.
#![tactic(auto)]

ghost use Rattle.goo_spec_again.specs.Whole.{AcceptedIsRepeated, DeclarationsAgain};
ghost use Rattle.goo_spec_again.specs.Whole.{KeptIsRepeated, ListsAgain};

/// The laws, from every state, sound or not.
///
/// - `kept`: a request whose key is kept, with its command, is repeated with the kept reply and
///   changes nothing, whatever the state.
/// - `accepted`: an accepted request is repeated with its first reply and changes nothing, whatever
///   was sent in between.
/// - `lists`: a list is sent again whole after a part of it, from the first request on. Where no
///   request of the part that was not accepted would now be accepted, the state is that of the list
///   sent once. The accepted requests of the part are repeated with their first reply, the refused
///   ones are refused, and the requests behind the part have the outcomes of the list sent once.
/// - `declarations`: so it is of every list of declarations. A refusal may have another reason: a
///   later declaration of the device was accepted meanwhile, or one under the same key.
pub fn sent_again_whole()
    ensures kept { KeptIsRepeated }
    ensures accepted { AcceptedIsRepeated }
    ensures lists { ListsAgain }
    ensures declarations { DeclarationsAgain }
{}
