//! Operations over a view of the tables.
#![tactic(auto)]

mod fill;
mod keys;
mod model;
mod put;
mod refusal;
mod run;
mod shape;

pub use refusal::{Refusal, answered};
pub use run::run_op;
