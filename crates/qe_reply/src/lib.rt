//! The texts of replies.
#![tactic(auto)]

mod answers;
mod errors;
mod fixed;
mod room;
mod texts;
mod transactions;

pub use fixed::{memory_line, not_json_line, unbuilt_line};
pub use room::FaultRoom;
pub use texts::{ReplyText, write_reply};
