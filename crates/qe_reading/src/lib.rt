//! Definitions: what a filter says of a row, the rows that an operation looks up, in which order, what
//! an answer shows of them, and what the reading operations answer.
#![tactic(auto)]

mod laws;
mod worked;

pub use laws::{filters, orders, pages, reads, relations, truths};
pub use worked::{filter_examples, fit_examples, order_examples, page_examples, read_examples};
