//! The law of messages. The function does nothing: its contract is the law.

ghost use Rattle.tally_desk_message.specs.LawStatements as law;

/// Bytes that are a message are no other message, and have no fault but that they may be refused
/// memory. So whoever sends the same bytes again sends the same message again.
pub fn bytes_are_one_message()
    ensures { law.BytesAreOneMessage }
{}
