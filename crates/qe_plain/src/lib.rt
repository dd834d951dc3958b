//! A connector that tells nothing: it keeps tables in plain lists, and answers each call by going over them.
#![tactic(auto)]

mod connector;
mod pairs;
mod rows;
mod tables;

pub use connector::PlainConnector;
