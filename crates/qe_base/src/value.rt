//! Values, and the rows that they make up.
ghost use Rattle.std.specs.Prelude.{◌≡◌, IfOk};
ghost use Rattle.std.proofs.Common.{rules};
ghost use Rattle.std.specs.Cmp.Rules.{comparing};
ghost use Rattle.std.specs.Cmp.Lexicographic.{slice_cmp};
ghost use Rattle.qe_base.specs.Values.{rank, bytes_in, number_in, value_cmp, value_partial_cmp, value_eq, row_cmp, row_partial_cmp, row_eq};
ghost use Rattle.qe_base.specs.ValueOrder.{value_cmp_total, value_eq_equivalence, value_partial_order, value_partial_equivalence, row_cmp_total, row_eq_equivalence, row_partial_order, row_partial_equivalence};

use crate::shared::Shared;
use qe_text::{Bytes, Memory, Text};
use sqlite_items::Items;
use std::alloc::Global;
use std::cmp::Ordering;

/// A table of the schema, by its number from 0: the models in schema order, then the link tables.
#[derive(Clone, Copy, Debug, PartialEq, Eq)]
pub struct TableId(pub u16);

/// An enum of the schema, by its number from 0 in schema order.
#[derive(Clone, Copy, Debug, PartialEq, Eq)]
pub struct EnumId(pub u16);

/// A relation of the schema, by its number from 0 in the order of the fields that hold them.
#[derive(Clone, Copy, Debug, PartialEq, Eq)]
pub struct RelId(pub u16);

/// What kind of values a column has.
#[derive(Clone, Copy, Debug, PartialEq, Eq)]
pub enum Kind {
    /// Any text.
    Text,
    /// True or false.
    Bool,
    /// A whole number within 32 bits, signed.
    Int,
    /// A whole number within 64 bits, signed.
    Big,
    /// Milliseconds since 1970-01-01T00:00:00Z, in the years 0000 to 9999.
    Moment,
    /// Any bytes.
    Blob,
    /// A member of an enum.
    Member(EnumId),
}

/// What stands in a column of a row. It never changes: a text or blob is shared by all that have it.
#[derive(Drop)]
pub enum Value {
    Null,
    Text(Shared<Text>),
    Bool(bool),
    /// A number of the kinds `Int` and `Big`.
    Int(i64),
    Moment(i64),
    Blob(Shared<Bytes>),
    /// A member by its number from 0.
    Member(u16),
}

impl Value {
    ghost use Rattle.qe_base.specs.declared.value.Value.TheVariants as value;

    /// A text as a value.
    pub fn text(alloc: Global, text: &str) -> Result<Value, Memory>
        ensures { IfOk result (λ v. v ≡ value.Text text.now) }
    {
        let text = Text::from_str(alloc, text)?;
        Ok(Value::Text(Shared::new(alloc, text)?))
    }

    /// The same value for one more owner. Nothing is copied.
    pub fn share(&self) -> Result<Value, Memory>
        ensures { IfOk result (λ v. v ≡ self.now) }
    {
        match self {
            Value::Null => Ok(Value::Null),
            Value::Text(text) => Ok(Value::Text(text.share()?)),
            Value::Bool(truth) => Ok(Value::Bool(*truth)),
            Value::Int(number) => Ok(Value::Int(*number)),
            Value::Moment(moment) => Ok(Value::Moment(*moment)),
            Value::Blob(bytes) => Ok(Value::Blob(bytes.share()?)),
            Value::Member(member) => Ok(Value::Member(*member)),
        }
    }

    /// The place of its kind in the order of values, null before all.
    fn rank(&self) -> u8
        ensures { result ≡ rank self.now }
    {
        match self {
            Value::Null => 0,
            Value::Text(_) => 1,
            Value::Bool(_) => 2,
            Value::Int(_) => 3,
            Value::Moment(_) => 4,
            Value::Blob(_) => 5,
            Value::Member(_) => 6,
        }
    }

    /// The bytes of a text or a blob, none of others.
    pub fn bytes(&self) -> &[u8]
        ensures { result.now ≡ bytes_in self.now }
    {
        match self {
            Value::Null => &[],
            Value::Text(text) => text.get().as_str().as_bytes(),
            Value::Bool(_) => &[],
            Value::Int(_) => &[],
            Value::Moment(_) => &[],
            Value::Blob(bytes) => bytes.get().as_slice(),
            Value::Member(_) => &[],
        }
    }

    /// The number that a value is or stands for, 0 of others.
    fn number(&self) -> i64
        ensures { result ≡ number_in self.now }
    {
        match self {
            Value::Null => 0,
            Value::Text(_) => 0,
            Value::Bool(truth) => i64::from(*truth),
            Value::Int(number) => *number,
            Value::Moment(moment) => *moment,
            Value::Blob(_) => 0,
            Value::Member(member) => i64::from(*member),
        }
    }

    /// Compares values of any kinds.
    fn compare(&self, other: &Value) -> Ordering
        ensures { result ≡ value_cmp self.now other.now }
    {
        self.rank()
            .cmp(&other.rank())
            .then(self.bytes().cmp(other.bytes()))
            .then(self.number().cmp(&other.number()))
    }
}

/// Null comes first. Texts and blobs go by their bytes, false before true, all others by number. Two whole numbers, which
/// most keys are, are compared without a look at kinds and bytes.
impl Ord for Value {
    ghost cmp = { value_cmp };

    ghost total = { value_cmp_total };

    ghost matches_partial_cmp = { Prim.search (comparing, rules) };

    ghost matches_eq = { Prim.search (comparing, rules) };

    fn cmp(&self, other: &Value) -> Ordering {
        match self {
            Value::Int(number) => match other {
                Value::Int(wanted) => number.cmp(wanted),
                _ => self.compare(other),
            },
            _ => self.compare(other),
        }
    }
}

impl PartialOrd for Value {
    ghost partial_cmp = { value_partial_cmp };

    ghost laws = { value_partial_order };

    fn partial_cmp(&self, other: &Value) -> Option<Ordering> {
        Some(self.cmp(other))
    }
}

impl Eq for Value {
    ghost laws = { value_eq_equivalence };
}

impl PartialEq for Value {
    ghost eq = { value_eq };

    ghost laws = { value_partial_equivalence };

    fn eq(&self, other: &Value) -> bool {
        self.cmp(other) == Ordering::Equal
    }
}

/// One value for each column of a table, or of a key, in column order. It is shared by all that have it.
#[derive(Drop)]
pub struct Row {
    values: Shared<Items<Value>>,
}

impl Row {
    /// A row of these values.
    pub fn new(alloc: Global, values: Items<Value>) -> Result<Row, Memory>
        ensures { IfOk result (λ row. row.values ≡ values) }
    {
        Ok(Row {
            values: Shared::new(alloc, values)?,
        })
    }

    /// Its values, in column order.
    pub fn values(&self) -> &[Value]
        ensures { result.now ≡ self.now.values }
    {
        self.values.get().as_slice()
    }

    /// The same row for one more owner. Nothing is copied.
    pub fn share(&self) -> Result<Row, Memory>
        ensures { IfOk result (λ row. row ≡ self.now) }
    {
        Ok(Row {
            values: self.values.share()?,
        })
    }
}

fn compare<'x>(values: &'x [Value], others: &'x [Value]) -> Ordering
    ensures { result ≡ slice_cmp value_cmp values.now others.now }
{
    Ord::cmp(&values, &others)
}

/// Rows go by the first values that differ.
impl Ord for Row {
    ghost cmp = { row_cmp };

    ghost total = { row_cmp_total };

    ghost matches_partial_cmp = { Prim.search (comparing, rules) };

    ghost matches_eq = { Prim.search (comparing, rules) };

    fn cmp(&self, other: &Row) -> Ordering {
        compare(self.values(), other.values())
    }
}

impl PartialOrd for Row {
    ghost partial_cmp = { row_partial_cmp };

    ghost laws = { row_partial_order };

    fn partial_cmp(&self, other: &Row) -> Option<Ordering> {
        Some(self.cmp(other))
    }
}

impl Eq for Row {
    ghost laws = { row_eq_equivalence };
}

impl PartialEq for Row {
    ghost eq = { row_eq };

    ghost laws = { row_partial_equivalence };

    fn eq(&self, other: &Row) -> bool {
        self.cmp(other) == Ordering::Equal
    }
}

/// Rows of one table, in the order that a call gives them.
#[derive(Drop)]
pub struct Rows {
    pub rows: Items<Row>,
}
