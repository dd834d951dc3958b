//! Operations, and the nested writes that they carry.
use crate::query::{Filter, Look, Pick, Unique};
use crate::value::{TableId, Value};
use sqlite_items::Items;

/// What an update does to a column.
#[derive(Drop)]
pub enum Edit {
    Set(Value),
    Add(i64),
    Subtract(i64),
    Multiply(i64),
    Divide(i64),
}

/// A row to be made: the values that are given, by their columns, and the steps on its relations.
#[cycle(write)]
#[derive(Drop)]
pub struct Create {
    pub values: Items<(u16, Value)>,
    pub nested: Items<Nested>,
}

/// A row to be changed: the edits, by their columns, and the steps on its relations.
#[cycle(write)]
#[derive(Drop)]
pub struct Update {
    pub edits: Items<(u16, Edit)>,
    pub nested: Items<Nested>,
}

/// The steps on the relation of one field.
#[cycle(write)]
#[derive(Drop)]
pub struct Nested {
    pub field: u16,
    pub steps: Items<Step>,
}

/// A nested write.
#[cycle(write)]
#[derive(Drop)]
pub enum Step {
    Set(Items<Unique>),
    Disconnect(Option<Unique>),
    Delete(Option<Unique>),
    DeleteMany(Filter),
    Update(Option<Unique>, Update),
    UpdateMany(Filter, Update),
    Upsert(Option<Unique>, Create, Update),
    Connect(Unique),
    ConnectOrCreate(Unique, Create),
    Create(Create),
    CreateMany(Items<Create>),
}

/// An operation on one table.
#[derive(Drop)]
pub enum Op {
    /// The row at a key, or null; where `strict`, a refusal in place of null.
    FindUnique {
        table: TableId,
        at: Unique,
        strict: bool,
        pick: Pick,
    },
    /// The first row of a look, or null; where `strict`, a refusal in place of null.
    FindFirst {
        table: TableId,
        look: Look,
        strict: bool,
        pick: Pick,
    },
    FindMany {
        table: TableId,
        look: Look,
        pick: Pick,
    },
    /// How many rows a look has.
    Count {
        table: TableId,
        look: Look,
    },
    Create {
        table: TableId,
        tree: Create,
        pick: Pick,
    },
    /// With a pick the rows are answered, else their number.
    CreateMany {
        table: TableId,
        trees: Items<Create>,
        pick: Option<Pick>,
    },
    Update {
        table: TableId,
        at: Unique,
        tree: Update,
        pick: Pick,
    },
    UpdateMany {
        table: TableId,
        filter: Filter,
        tree: Update,
    },
    Upsert {
        table: TableId,
        at: Unique,
        create: Create,
        update: Update,
        pick: Pick,
    },
    Delete {
        table: TableId,
        at: Unique,
        pick: Pick,
    },
    DeleteMany {
        table: TableId,
        filter: Filter,
    },
}
