//! Laws of changes, nested writes, operations and batches.
#![tactic(auto)]

mod changing;
mod writing;

pub use changing::{
    changes_are_their_steps, changes_keep_the_tables_fit, changes_keep_what_replacements_keep,
};
pub use writing::{
    no_key_stands_twice, operations_keep_tables_fitting, reads_leave_tables, refusals_leave_tables,
    writes_keep_any_test,
};
