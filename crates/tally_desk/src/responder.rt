//! What answers messages.

ghost use Rattle.std.specs.Prelude.{◌≡◌, ℕ, List, Result};
ghost use Rattle.tally_desk_message.specs.declared.message.Message.{Message};
ghost use Rattle.tally_desk_message.specs.declared.message.MessageFault.{MessageFault};
ghost use Rattle.tally_desk.specs.Serving.{text_or};

use std::alloc::Global;
use tally_desk_message::{Message, MessageFault};

/// Answers messages from a keeper.
pub trait Responder<K> {
    /// The content of a keeper, as far as answers depend on it.
    ghost Content: { Type 0 };

    ghost content: { K → Content };

    /// The premise under which a keeper is known to have that content. It may cease to hold at any
    /// call.
    ghost IsTrusted: { K → Type 0 };

    /// The answer to a message or a fault over a content, and the content then.
    ghost Answers: { Content → Result Message MessageFault → List ℕ → Content → Type 0 };

    /// The answer where there was no memory for one.
    ghost unavailable: { List ℕ };

    /// The answer to a message or to a fault, or `None` where there was no memory for one.
    fn respond(
        &self,
        alloc: Global,
        keeper: &mut K,
        message: &Result<Message, MessageFault>,
    ) -> Option<Vec<u8>>
        ensures trusted { IsTrusted keeper.new → IsTrusted keeper.old }
        ensures answers { IsTrusted keeper.new → Answers (content keeper.old) message.now
            (text_or unavailable result) (content keeper.new) };

    /// The answer where there was no memory for one. It takes none.
    fn unavailable(&self) -> &'static [u8]
        ensures { result.now ≡ unavailable };
}
