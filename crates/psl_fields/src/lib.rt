//! The rules on settings, names, types and attributes: for each, the first place of a tree that breaks it.
#![tactic(auto)]

mod arguments;
mod attributes;
mod field_types;
mod misgiven;
mod names;
mod once;
mod settings;
mod standing;
mod terms;

pub use attributes::attributes_are_known;
pub use field_types::{lists_are_of_models, types_are_known};
pub use misgiven::arguments_are_right;
pub use names::{field_names_are_distinct, type_names_are_distinct};
pub use once::attributes_stand_once;
pub use settings::{has_a_model, one_datasource, settings_are_given};
pub use standing::attributes_stand_rightly;
