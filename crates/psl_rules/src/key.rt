//! Keys of models.
use psl_text::Name;
use qe_text::{Items, Text};

/// An id or a unique: its name, at the place of its attribute, and its fields.
#[derive(Drop)]
pub struct Key {
    pub name: Name,
    pub fields: Items<Text>,
}
