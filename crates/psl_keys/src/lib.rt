//! The rules on ids, keys and defaults: for each, the first place of a tree that breaks it.
#![tactic(auto)]

mod counters;
mod defaults;
mod fitting;
mod keys;
mod lookup;
mod members;
mod repeated;

pub use counters::counters_are_ids;
pub use defaults::defaults_fit;
pub use fitting::number_in;
pub use keys::{id_names, key_name, keys_are_distinct, keys_of, one_id};
