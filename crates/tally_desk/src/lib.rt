//! The desk of an electoral office: messages of HTTP/1.1 that are answered from a keeper.
#![tactic(auto)]

mod command;
mod country;
mod desk;
mod named;
mod respond;
mod responder;
mod results;
mod room;
pub mod serving;
mod show;
mod stations;
mod trial;

pub use desk::serve;
pub use responder::Responder;
pub use serving::Served;
pub use tally_desk_message::{
    Door, DoorFault, MemoryConn, MemoryDoor, Message, MessageFault, NoClock, TcpDoor, read_message,
};
