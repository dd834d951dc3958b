//! Definitions: what operations make of the tables.
#![tactic(auto)]

mod examples;
mod fitting;
mod footprints;

pub use examples::{
    changes_along_a_chain, connect_or_create_twice, counters, delete_of_the_row_being_updated,
    deletes_in_a_tree, edits_of_numbers, identifiers_in_order, references_that_steps_give,
    set_on_a_required_relation,
};
pub use fitting::{
    batches_that_fit, edits_that_fit, new_rows_that_fit, steps_that_fit, what_fits_is_on_models,
};
pub use footprints::{changes_and_deletes, creates_of_nothing};
