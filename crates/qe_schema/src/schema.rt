//! Schemas that are sound.
ghost use Rattle.std.specs.Prelude.{◌≡◌, ◌<◌, length, IfOk, IfSome, slice_get, position, bytes_eq};
ghost use Rattle.std.specs.Option.{option_copied};
ghost use Rattle.qe_base.specs.Schemas.{table_named, link_of};
ghost use Rattle.qe_schema.specs.Sound.{IsSound};

use crate::copies::{copy_choices, copy_links, copy_relations, copy_tables};
use qe_base::{Choice, EnumId, Link, RelId, Relation, Table, TableId};
use qe_text::{Items, Memory};
use std::alloc::Global;
use std::marker::Model;

/// A sound schema, which contracts see as its tables, relations, links and enums.
#[derive(Drop)]
pub struct Schema {
    tables: Items<Table>,
    relations: Items<Relation>,
    links: Items<Link>,
    choices: Items<Choice>,
}

impl Model for Schema {
    ghost use Rattle.qe_base.specs.Schemas.{Schema};
    ghost use Rattle.qe_schema.specs.Sound.{IsSound};

    ghost Value = { Schema };

    ghost view = { λ s. record { tables = s.tables; relations = s.relations; links = s.links; choices = s.choices } };

    ghost invariant = { λ s. IsSound (record { tables = s.tables; relations = s.relations; links = s.links; choices = s.choices }) };
}

fn position_of(tables: &[Table], name: &str) -> Option<usize>
    ensures at { result ≡ position (λ table. bytes_eq table.name name.now) tables.now }
    ensures within { IfSome result (λ at. at < length tables.now) }
{
    tables.iter().position(|table| table.name.is_same(name))
}

impl Schema {
    /// The schema of these tables, relations, links and enums.
    pub fn new(
        tables: Items<Table>,
        relations: Items<Relation>,
        links: Items<Link>,
        choices: Items<Choice>,
    ) -> Schema
        requires { IsSound (record { tables = tables; relations = relations; links = links; choices = choices }) }
        ensures { result ≡ record { tables = tables; relations = relations; links = links; choices = choices } }
    {
        Schema {
            tables,
            relations,
            links,
            choices,
        }
    }

    /// A schema has all that the engine needs of one.
    pub fn is_sound(&self)
        ensures { IsSound self.now }
    {
        let _tables = &self.tables;
    }

    /// How many tables there are, link tables among them.
    pub fn tables(&self) -> u16
        ensures { result ≡ length self.now.tables }
    {
        self.tables.len() as u16
    }

    /// The tables, by their numbers.
    pub fn table_list(&self) -> &[Table]
        ensures { result.now ≡ self.now.tables }
    {
        self.tables.as_slice()
    }

    /// The table of a number, or None where there is no such number.
    pub fn table(&self, table: TableId) -> Option<&Table>
        ensures { option_copied result ≡ slice_get self.now.tables table.0 }
    {
        sqlite_items::at(self.tables.as_slice(), table.0 as usize)
    }

    /// The table of a name, or None where no table has it.
    pub fn find(&self, name: &str) -> Option<TableId>
        ensures { result ≡ table_named name.now self.now.tables }
    {
        match position_of(self.tables.as_slice(), name) {
            Some(at) => Some(TableId(at as u16)),
            None => None,
        }
    }

    /// How many relations there are.
    pub fn relations(&self) -> u16
        ensures { result ≡ length self.now.relations }
    {
        self.relations.len() as u16
    }

    /// The relations, by their numbers.
    pub fn relation_list(&self) -> &[Relation]
        ensures { result.now ≡ self.now.relations }
    {
        self.relations.as_slice()
    }

    /// The relation of a number, or None where there is no such number.
    pub fn relation(&self, relation: RelId) -> Option<&Relation>
        ensures { option_copied result ≡ slice_get self.now.relations relation.0 }
    {
        sqlite_items::at(self.relations.as_slice(), relation.0 as usize)
    }

    /// The link that a table keeps, or None where it is no link table.
    pub fn link(&self, table: TableId) -> Option<&Link>
        ensures { option_copied result ≡ link_of table.0 self.now.links }
    {
        self.links
            .as_slice()
            .iter()
            .find(|link| link.table == table)
    }

    /// The enums, by their numbers.
    pub fn choice_list(&self) -> &[Choice]
        ensures { result.now ≡ self.now.choices }
    {
        self.choices.as_slice()
    }

    /// The enum of a number, or None where there is no such number.
    pub fn choice(&self, choice: EnumId) -> Option<&Choice>
        ensures { option_copied result ≡ slice_get self.now.choices choice.0 }
    {
        sqlite_items::at(self.choices.as_slice(), choice.0 as usize)
    }

    /// An equal schema.
    pub fn copy(&self, alloc: Global) -> Result<Schema, Memory>
        ensures { IfOk result (λ copy. copy ≡ self.now) }
    {
        let tables = copy_tables(alloc, self.tables.as_slice())?;
        let relations = copy_relations(alloc, &self.relations)?;
        let links = copy_links(alloc, &self.links)?;
        let choices = copy_choices(alloc, self.choices.as_slice())?;
        Ok(Schema {
            tables,
            relations,
            links,
            choices,
        })
    }
}
