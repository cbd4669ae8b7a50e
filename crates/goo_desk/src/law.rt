//! Laws of the desk, of a registry.
ghost use Rattle.goo_desk_answers.specs.Responds.{IsOneResponse};
ghost use Rattle.goo_desk_backend.specs.Showing.{shown_by, imported_by, begun_by};
ghost use Rattle.goo_desk_server.specs.Runs.{StepsAreARun};
ghost use Rattle.goo_desk.specs.Denied.{DeniedAreSentNothing, DeniedSeeNothing};
ghost use Rattle.goo_desk.specs.Holders.{OwnAloneIsSent};

/// A registry answers the same bytes in the same state in one way: with one status, one text and
/// one state after it.
pub fn one_response()
    ensures { IsOneResponse shown_by imported_by }
{}

/// Connections to a registry, one after another, come to the state of a run of the requests that
/// their bytes bring, or of those of them that stand after a fault, and of no others.
pub fn connections_are_a_run()
    ensures { StepsAreARun shown_by imported_by begun_by }
{}

/// A caller who asks a registry to be shown something and is denied it is sent the denial or that a
/// fault came, and no byte of it, however the call ends.
///
/// - `answered`: so is each answer;
/// - `sent`: and so is what the client of a connection of [`serve`](goo_desk_server::serve) is sent.
pub fn denied_see_nothing()
    ensures answered { DeniedSeeNothing }
    ensures sent { DeniedAreSentNothing }
{}

/// What a holder's connections are sent depends on its own accounts and the date alone: two that
/// send the same bytes to registries that agree on these are sent one text, or that a fault came,
/// or a beginning of these.
pub fn own_alone_is_sent()
    ensures { OwnAloneIsSent }
{}
