//! What a schema is made of: tables with their columns, keys and fields, relations, link tables and
//! enums.
use crate::value::{Kind, RelId, TableId, Value};
use qe_text::{Items, Text};

/// What a new row has in a column that isn't given.
#[derive(Drop)]
pub enum Fill {
    /// Nothing: null.
    Absent,
    Literal(Value),
    /// The table's counter plus one.
    Counter,
    /// The moment of the operation.
    Now,
    /// The next identifier of the operation.
    Uuid,
}

/// What happens to a row whose related row goes or changes.
#[derive(Clone, Copy, Debug, PartialEq, Eq)]
pub enum Action {
    Cascade,
    Restrict,
    SetNull,
}

/// A column of a table. `stored` is its name in the database; `updated` says that each update of a
/// row sets it to the moment.
#[derive(Drop)]
pub struct Column {
    pub name: Text,
    pub stored: Text,
    pub kind: Kind,
    pub optional: bool,
    pub fill: Fill,
    pub updated: bool,
}

/// Columns whose values tell the rows of a table apart.
#[derive(Drop)]
pub struct Key {
    pub name: Text,
    pub columns: Items<u16>,
}

/// A field of a model: a column, the side of a relation that has the foreign key, its other side, or
/// a side of a link table.
#[derive(Clone, Copy, Debug, PartialEq, Eq)]
pub enum Field {
    Scalar(u16),
    Holder(RelId),
    Target(RelId),
    SideA(TableId),
    SideB(TableId),
}

/// A model or a link table. The first key is the id; the others are in text order.
#[derive(Drop)]
pub struct Table {
    pub name: Text,
    pub stored: Text,
    pub link: bool,
    pub columns: Items<Column>,
    pub keys: Items<Key>,
    pub fields: Items<(Text, Field)>,
    pub indexes: Items<Items<u16>>,
}

/// A relation between two models, by the foreign key that the child has.
#[derive(Drop)]
pub struct Relation {
    pub child: TableId,
    pub child_field: Text,
    pub child_columns: Items<u16>,
    pub parent: TableId,
    pub parent_field: Text,
    pub parent_columns: Items<u16>,
    pub many: bool,
    pub optional: bool,
    pub on_delete: Action,
    pub on_update: Action,
}

/// A link table, and the two models that it links.
#[derive(Drop)]
pub struct Link {
    pub table: TableId,
    pub a: TableId,
    pub a_field: Text,
    pub b: TableId,
    pub b_field: Text,
}

/// An enum.
#[derive(Drop)]
pub struct Choice {
    pub name: Text,
    pub members: Items<Text>,
}
