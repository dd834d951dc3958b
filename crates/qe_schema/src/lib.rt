//! Sound schemas, the tables that fit one, and what a test says of a value.
#![tactic(auto)]

mod copies;
mod schema;
mod truth;

pub use copies::{copy_choices, copy_tables};
pub use schema::Schema;
pub use truth::Truth;
