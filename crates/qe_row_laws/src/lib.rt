//! Laws of putting rows and pairs, and of deletes.
#![tactic(auto)]

mod deleting;
mod putting;

pub use deleting::{
    deletes_keep_tables_fitting, deletes_leave_none_dangling, deletes_leave_the_rest,
    doomed_rows_are_the_least, refusals_name_what_keeps,
};
pub use putting::{
    ids_are_ordered, pairs_are_ordered, pairs_keep_the_tables_fit, pairs_stay_in_order,
    puts_keep_the_tables_fit,
};
