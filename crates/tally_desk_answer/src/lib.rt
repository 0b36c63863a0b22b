//! The bytes of the desk's answers. Those to commands are written into room that was reserved
//! before, so that nothing takes memory once a command was accepted.
#![tactic(auto)]

mod answer;
mod group;
mod import;
mod outcome;
mod push;
mod show;
mod status;
mod word;

pub use answer::{HEAD_ROOM, answer_of, write_answer};
pub use import::write_import;
pub use outcome::{ANSWER_ROOM, BODY_ROOM, write_outcome};
pub use show::{con_text, return_text};
pub use status::{AnswerStatus, BodyType};
pub use word::{WORD_ROOM, Word, unavailable_text, write_word};
