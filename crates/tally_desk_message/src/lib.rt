//! Doors: connections one after the other, each of which is read and written; and messages of
//! HTTP/1.1, read from a door.
#![tactic(auto)]

mod body;
mod door;
mod fields;
mod head;
mod input;
pub mod laws;
mod lines;
mod memory;
mod message;
mod read;
mod start;
mod tcp;
mod write;

pub use door::{Door, DoorFault};
pub use memory::{MemoryConn, MemoryDoor};
pub use message::{Message, MessageFault};
pub use read::read_message;
pub use tcp::{NoClock, TcpDoor};
pub use write::write_all;
