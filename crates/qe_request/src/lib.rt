//! What lines ask for: a line's JSON, read as an operation.
#![tactic(auto)]

mod lines;
mod members;
mod operations;
mod scalars;
mod simple;

pub use lines::{LineFault, read_line};
