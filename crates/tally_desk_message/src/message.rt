//! What a message is.

ghost use Rattle.std.specs.Prelude.{◌≡◌};

use http::Method;
use std::alloc::AllocError;

/// A message: the method and the target of its head, as they came, and its body.
#[derive(Drop)]
pub struct Message {
    pub method: Method,
    pub target: Vec<u8>,
    pub body: Vec<u8>,
}

/// Why no message was read.
#[derive(Clone, Copy, Debug)]
pub enum MessageFault {
    /// The bytes begin with no head.
    BadHead,
    /// The first 16,384 bytes have no whole head.
    HeadTooLong,
    /// A POST without a Content-Length, or a Transfer-Encoding.
    LengthRequired,
    /// More than one Content-Length, or one that is not 1 to 18 digits.
    BadLength,
    /// A Content-Length above 1,048,576.
    BodyTooLong,
    /// The connection ended before the body did.
    EndedEarly,
    /// A read of the connection failed.
    Read,
    /// An allocation was refused.
    Memory,
}

impl From<AllocError> for MessageFault {
    ghost use Rattle.tally_desk_message.specs.declared.message.MessageFault.TheVariants.{Memory};

    ghost from_gives = { λ _ fault. fault ≡ Memory };

    fn from(_refused: AllocError) -> MessageFault {
        MessageFault::Memory
    }
}
