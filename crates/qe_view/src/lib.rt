//! What a connector and a view are: the layout of a schema, changes of its tables, the values of rows and
//! what tests say of them, and the traits of what keeps tables and of what operations work on.
#![tactic(auto)]

mod changes;
mod connector;
mod layout;
mod statements;
mod tests;
mod values;
mod view;

pub use changes::{AttachFault, Change, ConnFault};
pub use connector::Connector;
pub use layout::{ForeignKey, Layout};
pub use tests::{passes, test_of};
pub use values::{
    has_null, has_values, holds, id_row, is_null, is_wanted, pair_row, share_rows, value_in,
    values_at,
};
pub use view::{Mark, View};
