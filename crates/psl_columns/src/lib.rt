//! Enums, and the columns, keys and indexes of models: their values, from the tree of a schema text.
#![tactic(auto)]

mod choice;
mod column;
mod enums;
mod fill;
mod key;
mod names;

pub use choice::choices;
pub use column::{columns, kind};
pub use enums::Enums;
pub use key::{column_numbers, indexes, keys};
pub use names::{as_number, column_names, is_column, number_among};
