//! What a database of a schema is laid out by.
ghost use Rattle.std.specs.Prelude.{◌≡◌, length, IfOk, map, slice_get};
ghost use Rattle.std.specs.Option.{option_copied};
ghost use Rattle.qe_view.specs.Layouts.{foreign_key_of, layout_of, foreign_columns, IsLayout};
ghost use Rattle.qe_view.specs.LayoutText.{layout_text};

use crate::statements::statements;
use qe_base::{Choice, EnumId, Relation, Table, TableId};
use qe_schema::{Schema, copy_choices, copy_tables};
use qe_text::{Items, Memory, Text};
use std::alloc::Global;
use std::marker::Model;

/// The columns by which the rows of a table refer to others.
#[derive(Drop)]
pub struct ForeignKey {
    pub child: TableId,
    pub columns: Items<u16>,
}

/// The layout of a sound schema, which contracts see as its tables, enums and foreign keys.
#[derive(Drop)]
pub struct Layout {
    tables: Items<Table>,
    choices: Items<Choice>,
    foreign_keys: Items<ForeignKey>,
}

impl Model for Layout {
    ghost use Rattle.qe_view.specs.Layouts.{Layout, IsLayout};

    ghost Value = { Layout };

    ghost view = { λ l. record { tables = l.tables; choices = l.choices; foreign_keys = l.foreign_keys } };

    ghost invariant = { λ l. IsLayout (record { tables = l.tables; choices = l.choices; foreign_keys = l.foreign_keys }) };
}

fn foreign_keys(alloc: Global, relations: &[Relation]) -> Result<Items<ForeignKey>, Memory>
    ensures { IfOk result (λ keys. keys ≡ map foreign_key_of relations.now) }
{
    let mut keys = Items::new(alloc);
    for relation in relations {
        keys.push(ForeignKey {
            child: relation.child,
            columns: Items::from_slice(alloc, relation.child_columns.as_slice())?,
        })?;
    }
    Ok(keys)
}

fn copy_foreign_keys(alloc: Global, all: &[ForeignKey]) -> Result<Items<ForeignKey>, Memory>
    ensures { IfOk result (λ keys. keys ≡ all.now) }
{
    let mut keys = Items::new(alloc);
    for key in all {
        keys.push(ForeignKey {
            child: key.child,
            columns: Items::from_slice(alloc, key.columns.as_slice())?,
        })?;
    }
    Ok(keys)
}

impl Layout {
    /// The layout of a schema.
    pub fn of(alloc: Global, schema: &Schema) -> Result<Layout, Memory>
        ensures { IfOk result (λ layout. layout ≡ layout_of schema.now) }
    {
        schema.is_sound();
        let tables = copy_tables(alloc, schema.table_list())?;
        let choices = copy_choices(alloc, schema.choice_list())?;
        let foreign_keys = foreign_keys(alloc, schema.relation_list())?;
        Ok(Layout {
            tables,
            choices,
            foreign_keys,
        })
    }

    /// A layout is that of a sound schema.
    pub fn is_of_schema(&self)
        ensures { IsLayout self.now }
    {
        let _tables = &self.tables;
    }

    /// An equal layout.
    pub fn copy(&self, alloc: Global) -> Result<Layout, Memory>
        ensures { IfOk result (λ layout. layout ≡ self.now) }
    {
        let tables = copy_tables(alloc, self.tables.as_slice())?;
        let choices = copy_choices(alloc, self.choices.as_slice())?;
        let foreign_keys = copy_foreign_keys(alloc, self.foreign_keys.as_slice())?;
        Ok(Layout {
            tables,
            choices,
            foreign_keys,
        })
    }

    /// The tables, link tables among them.
    pub fn table_list(&self) -> &[Table]
        ensures { result.now ≡ self.now.tables }
    {
        self.tables.as_slice()
    }

    /// How many tables there are, link tables among them.
    pub fn tables(&self) -> u16
        ensures { result ≡ length self.now.tables }
    {
        self.tables.len() as u16
    }

    /// The table of a number, or None where there is no such number.
    pub fn shape(&self, table: TableId) -> Option<&Table>
        ensures { option_copied result ≡ slice_get self.now.tables table.0 }
    {
        sqlite_items::at(self.tables.as_slice(), table.0 as usize)
    }

    /// The enum of a number, or None where there is no such number.
    pub fn choice(&self, choice: EnumId) -> Option<&Choice>
        ensures { option_copied result ≡ slice_get self.now.choices choice.0 }
    {
        sqlite_items::at(self.choices.as_slice(), choice.0 as usize)
    }

    /// The columns of a table's foreign key of a number, in the order of relations, or None where
    /// there is no such number.
    pub fn foreign(&self, table: TableId, number: u16) -> Option<&[u16]>
        ensures { option_copied result ≡ slice_get (foreign_columns table.0 self.now.foreign_keys) number }
    {
        let mut left = number;
        for key in self.foreign_keys.as_slice() {
            if key.child == table {
                if left == 0 {
                    return Some(key.columns.as_slice());
                }
                left -= 1;
            }
        }
        None
    }

    /// The statements that make an empty database.
    pub fn ddl(&self, alloc: Global) -> Result<Text, Memory>
        ensures { IfOk result (λ text. text ≡ layout_text self.now) }
    {
        statements(alloc, self.tables.as_slice())
    }
}
