//! What is asked of rows: filters, orders, pages and selections.
use crate::value::{Row, Value};
use qe_text::Text;
use sqlite_items::{Boxed, Items};

/// A row by one of its table's keys, if the filter holds of it too. `values` has one value for each
/// column of the key.
#[derive(Drop)]
pub struct Unique {
    pub key: u16,
    pub values: Row,
    pub extra: Filter,
}

/// Where a text stands in another one.
#[derive(Clone, Copy, Debug, PartialEq, Eq)]
pub enum Like {
    Inside,
    Begin,
    End,
}

/// What is asked of the value in a column.
#[derive(Drop)]
pub enum Test {
    IsNull,
    Equals(Value),
    OneOf(Items<Value>),
    Less(Value),
    AtMost(Value),
    Greater(Value),
    AtLeast(Value),
    Like(Like, Text),
}

/// What is asked of the value in one column of a row.
#[derive(Drop)]
pub struct ColumnTest {
    pub column: u16,
    pub test: Test,
}

/// Of how many related rows a filter has to hold.
#[derive(Clone, Copy, Debug, PartialEq, Eq)]
pub enum Quant {
    Some,
    Every,
    None,
}

/// What is asked of a row. A field is named by its number among the table's fields.
#[derive(Drop)]
pub enum Filter {
    All(Items<Filter>),
    Any(Items<Filter>),
    Not(Boxed<Filter>),
    Test {
        column: u16,
        test: Test,
    },
    Many {
        field: u16,
        how: Quant,
        inner: Boxed<Filter>,
    },
    /// With no filter: there is no related row.
    One {
        field: u16,
        inner: Option<Boxed<Filter>>,
    },
}

/// What rows are compared by: a column, or how many rows are related through a field.
#[derive(Clone, Copy, Debug, PartialEq, Eq)]
pub enum OrderEnd {
    Column(u16),
    Count(u16),
}

/// One comparison of an order. The path leads through fields to one row each.
#[derive(Drop)]
pub struct OrderBy {
    pub path: Items<u16>,
    pub end: OrderEnd,
    pub descending: bool,
    pub nulls_first: Option<bool>,
}

/// The part of an ordered list that is asked for.
#[derive(Drop)]
pub struct Page {
    pub distinct: Items<u16>,
    pub cursor: Option<Unique>,
    pub skip: u64,
    pub take: Option<i64>,
}

/// Which rows, in which order.
#[derive(Drop)]
pub struct Look {
    pub filter: Filter,
    pub order: Items<OrderBy>,
    pub page: Page,
}

/// What an answer has of a row: columns, numbers of related rows, and related rows.
#[cycle(pick)]
#[derive(Drop)]
pub struct Pick {
    pub columns: Items<u16>,
    pub counts: Items<u16>,
    pub children: Items<Child>,
}

/// The related rows that an answer has through a field.
#[cycle(pick)]
#[derive(Drop)]
pub struct Child {
    pub field: u16,
    pub look: Look,
    pub pick: Pick,
}
