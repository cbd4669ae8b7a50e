//! What is kept under a caller's key.
ghost use Rattle.std.specs.Prelude.{◌≡◌, Some};
ghost use Rattle.std.specs.Option.{option_copied};
ghost use Rattle.goo_core_shelf.specs.Shelf.{receipt_of};

use goo_core_shelf::found::Receipt;
use goo_types::command::Command;
use goo_types::reply::Reply;
use std::marker::Model;

/// What is kept for a caller's key: an accepted command and its reply.
#[derive(Drop)]
pub struct ListedReply {
    command: Command,
    reply: Reply,
}

impl Model for ListedReply {
    ghost use Rattle.std.specs.Prelude.{Option, Some};
    ghost use Rattle.goo_types.specs.declared.command.Command.{Command as Asked};
    ghost use Rattle.goo_types.specs.declared.reply.Reply.{Reply as Answer};

    ghost Value = { Option Asked × Answer };

    ghost view = { λ k. (Some k.command, k.reply) };
}

impl ListedReply {
    /// A command with its reply.
    pub fn new(command: Command, reply: Reply) -> ListedReply
        ensures { result ≡ (Some command, reply) }
    {
        ListedReply { command, reply }
    }

    /// What the key answers to a command: the kept reply where it is the same command.
    fn receipt(&self, command: &Command) -> Receipt
        ensures { result ≡ receipt_of (Some self.now) command.now }
    {
        if self.command.is(command) {
            Receipt::Same(self.reply)
        } else {
            Receipt::Other
        }
    }
}

/// What a key answers to a command: nothing is kept, the same command with its reply, or another
/// command.
pub fn receipt_for(kept: Option<&ListedReply>, command: &Command) -> Receipt
    ensures { result ≡ receipt_of (option_copied kept.entry) command.now }
{
    match kept {
        Some(kept) => kept.receipt(command),
        None => Receipt::Absent,
    }
}
