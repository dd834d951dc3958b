//! The relations, links, fields and tables that an accepted schema text stands for.
#![tactic(auto)]

mod field;
mod link;
mod numbered;
mod numbers;
mod relation;
mod table;

pub use link::links;
pub use relation::relations;
pub use table::tables;
