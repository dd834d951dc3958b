//! What an event comes to.
ghost use Rattle.std.specs.Prelude.{◌≡◌};
ghost use Rattle.qe_base.specs.declared.event.Reply.TheVariants as replies;
ghost use Rattle.qe_forms.specs.Reply.{told_text};

use qe_base::{OpFault, Reply};
use qe_reply::{FaultRoom, ReplyText};

/// The reply to an event, and the reply's text. A greeting has none, and want of memory neither: for that a fixed
/// text stands.
#[derive(Drop)]
pub struct Told {
    pub reply: Reply,
    pub text: Option<ReplyText>,
}

impl Told {
    ghost use Rattle.qe_base.specs.Schemas.{Schema};

    pub(crate) fn hello() -> Told
        ensures reply { result.reply ≡ replies.Hello }
        ensures text { (schema : Schema) → result.text ≡ told_text schema result.reply }
    {
        Told {
            reply: Reply::Hello,
            text: None,
        }
    }

    pub(crate) fn memory() -> Told
        ensures reply { result.reply ≡ replies.Memory }
        ensures text { (schema : Schema) → result.text ≡ told_text schema result.reply }
    {
        Told {
            reply: Reply::Memory,
            text: None,
        }
    }

    /// A fault of the connector, by its counts before and after. It takes no memory.
    pub(crate) fn fault(room: FaultRoom, index: Option<u64>, before: u64, after: u64) -> Told
        ensures reply { result.reply ≡ replies.Refused index (OpFault.Connector before after) }
        ensures text { (schema : Schema) → result.text ≡ told_text schema result.reply }
    {
        let fault = OpFault::Connector { before, after };
        Told {
            reply: Reply::Refused { index, fault },
            text: Some(room.text(index, before, after)),
        }
    }
}
