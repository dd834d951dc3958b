//! From the tree of a schema text to its value, or to the first rule that it breaks.
#![tactic(auto)]

mod breach;
mod checking;
mod fields;
mod relations;
mod rules;

pub use breach::Breach;
pub use checking::{SchemaFault, check};
pub use rules::first_breach;
