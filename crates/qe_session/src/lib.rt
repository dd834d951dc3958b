//! The engine's core: it owns a schema and the connector that keeps its tables, and handles one event after
//! another. Each is one step of a legal history.
#![tactic(auto)]

mod machine;
mod run;
mod told;

pub use machine::Core;
pub use qe_reply::ReplyText;
pub use told::Told;
