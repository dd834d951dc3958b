//! What operations answer, and why they are refused.
ghost use Rattle.std.specs.Prelude.{◌≡◌};
ghost use Rattle.qe_base.specs.declared.answer.OpFault.TheVariants as fault;

use crate::value::{Kind, RelId, TableId, Value};
use qe_text::{Memory, Text};
use sqlite_items::Items;

/// What an operation answers.
#[derive(Drop)]
pub enum Answer {
    Null,
    Scalar(Kind, Value),
    Number(u64),
    Object(Items<(Text, Answer)>),
    List(Items<Answer>),
}

/// What is handed in with an event: the moment, in milliseconds since 1970-01-01T00:00:00Z, and the
/// seed of its identifiers.
#[derive(Clone, Copy, Debug, PartialEq, Eq)]
pub struct Outside {
    pub moment: i64,
    pub seed: u128,
}

/// Why no value fits a column.
#[derive(Clone, Copy, Debug, PartialEq, Eq)]
pub enum Why {
    /// A result is beyond the column's kind.
    Range,
    /// A division by zero.
    Zero,
    /// The counter has no number left.
    Exhausted,
    /// The moment is not in the years 0000 to 9999.
    Moment,
}

/// A rule that an operation breaks.
#[derive(Clone, Copy, Debug, PartialEq, Eq)]
pub enum Rule {
    /// Another row has the key's values.
    Unique {
        table: TableId,
        key: u16,
    },
    /// A row still needs the one that it refers to.
    Required {
        relation: RelId,
    },
    /// The row is not related through the field.
    Unconnected {
        table: TableId,
        field: u16,
    },
    /// No value fits the column.
    Range {
        table: TableId,
        column: u16,
        why: Why,
    },
    /// There is no such row.
    Absent {
        table: TableId,
    },
    /// A required row is missing.
    Dangling {
        table: TableId,
        field: u16,
    },
}

/// Why an operation has no answer.
#[derive(Clone, Copy, Debug, PartialEq, Eq)]
pub enum OpFault {
    Rule(Rule),
    /// The connector failed; its count of faults before and after.
    Connector { before: u64, after: u64 },
    /// A kept row does not fit its table.
    Misfit { table: TableId, column: u16 },
    Memory,
}

impl From<Memory> for OpFault {
    ghost from_gives = { λ _ e. e ≡ fault.Memory };

    fn from(_: Memory) -> OpFault {
        OpFault::Memory
    }
}
