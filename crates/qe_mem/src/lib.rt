//! Tables kept in memory: the rows of each in the order of their ids, and in a further order for each list
//! of columns that they are looked up by.
#![tactic(auto)]

mod connector;
mod counts;
mod empty;
mod keyed;
mod listing;
mod orders;
mod pending;
mod table;
mod tables;
mod turns;

pub use connector::MemConnector;
pub use counts::{CallKind, Counts, FailAt};
