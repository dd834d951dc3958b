//! The parts of a schema's tree: blocks, fields, attributes, arguments, names to look up, items in groups,
//! and the first of some places.
#![tactic(auto)]

mod arguments;
mod columns;
mod fields;
mod first;
mod groups;
mod names;
mod parts;
mod repeats;
mod types;

pub use arguments::{
    calls, given, given_names, given_text, has_attribute, is_among, is_called, name_in,
    push_given_names, text_in,
};
pub use columns::{Columns, is_scalar, is_value_type, name_columns};
pub use fields::{Field, are_optional, are_required, fields_named, have_same_types};
pub use first::{earlier, noted};
pub use groups::{first_places, grouped};
pub use names::{NameSet, field_names, member_names};
pub use parts::blocks_of;
pub use repeats::{first_repeat, stand_once};
pub use types::Types;
