//! The rules on relations, stored names and limits: for each, the first place of a tree that breaks it.
#![tactic(auto)]

mod foreign;
mod key_sets;
mod limits;
mod model_index;
mod passed;
mod ranks;
mod referred;
mod relations;
mod sides;
mod stored;
mod targets;
mod tree_index;
mod updates;
mod walks;

pub use foreign::{
    action, actions_are_known, foreign_keys_are_whole, holders, one_to_one_is_unique,
    references_are_columns, references_are_keys, references_have_the_type,
};
pub use limits::limits_hold;
pub use model_index::ModelIndex;
pub use relations::{End, Pair, ends, ends_are_paired, pairs, pairs_have_a_holder, partners};
pub use sides::Sides;
pub use stored::{link_name, mapped_model, stored_names_are_distinct, stored_tables};
pub use tree_index::TreeIndex;
pub use updates::updates_form_no_cycle;
