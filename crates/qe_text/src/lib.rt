//! Texts, bytes and names, and want of memory: what all other crates speak of.
#![tactic(auto)]

mod text;

pub use sqlite_items::{Boxed, Items};
pub use text::{Bytes, Memory, Text};
