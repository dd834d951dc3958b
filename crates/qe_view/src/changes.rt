//! What a connector is asked to change, and how its calls are refused.
ghost use Rattle.std.specs.Prelude.{◌≡◌};

use qe_base::{Row, TableId, Value};
use qe_text::{Memory, Text};
use std::alloc::{AllocError, AllocFailed};

/// One change of the tables that a connector keeps.
#[derive(Drop)]
pub enum Change {
    /// The row of an id goes.
    Remove { table: TableId, id: Row },
    /// A row comes, in place of one of the same id.
    Put { table: TableId, row: Row },
    /// A pair of a link table goes.
    Unlink { table: TableId, a: Value, b: Value },
    /// A pair of a link table comes.
    Link { table: TableId, a: Value, b: Value },
    /// A table's counter rises to a number that is greater.
    Counter { table: TableId, last: i64 },
}

/// Why a call of a connector or of a view was refused.
#[derive(Clone, Copy, Debug, PartialEq, Eq)]
pub enum ConnFault {
    /// The connector failed, and counts it.
    Failed,
    /// A kept row doesn't fit this column of the table.
    Misfit { table: TableId, column: u16 },
    Memory,
}

/// Why a connector wasn't attached.
#[derive(Drop)]
pub enum AttachFault {
    /// The connector failed, and counts it.
    Failed,
    /// What is kept there has another layout than the one wanted.
    Layout { kept: Text, wanted: Text },
    Memory,
}

impl From<Memory> for ConnFault {
    ghost use Rattle.qe_view.specs.declared.changes.ConnFault.TheVariants as fault;

    ghost from_gives = { λ _ e. e ≡ fault.Memory };

    fn from(_: Memory) -> ConnFault {
        ConnFault::Memory
    }
}

impl From<AllocError> for ConnFault {
    ghost use Rattle.qe_view.specs.declared.changes.ConnFault.TheVariants as fault;

    ghost from_gives = { λ _ e. e ≡ fault.Memory };

    fn from(_: AllocError) -> ConnFault {
        ConnFault::Memory
    }
}

impl<T: Drop> From<AllocFailed<T>> for ConnFault {
    ghost use Rattle.qe_view.specs.declared.changes.ConnFault.TheVariants as fault;

    ghost from_gives = { λ _ e. e ≡ fault.Memory };

    fn from(_: AllocFailed<T>) -> ConnFault {
        ConnFault::Memory
    }
}

impl From<Memory> for AttachFault {
    ghost use Rattle.qe_view.specs.declared.changes.AttachFault.TheVariants as fault;

    ghost from_gives = { λ _ e. e ≡ fault.Memory };

    fn from(_: Memory) -> AttachFault {
        AttachFault::Memory
    }
}
