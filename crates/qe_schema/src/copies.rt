//! Copies of a schema's parts.
ghost use Rattle.std.specs.Prelude.{◌≡◌, IfOk};

use qe_base::{Choice, Column, Field, Fill, Key, Link, Relation, Table};
use qe_text::{Items, Memory, Text};
use std::alloc::Global;

fn copy_numbers(alloc: Global, all: &Items<u16>) -> Result<Items<u16>, Memory>
    ensures { IfOk result (λ copy. copy ≡ all.now) }
{
    Ok(Items::from_slice(alloc, all.as_slice())?)
}

fn copy_indexes(alloc: Global, all: &Items<Items<u16>>) -> Result<Items<Items<u16>>, Memory>
    ensures { IfOk result (λ copy. copy ≡ all.now) }
{
    let mut copy = Items::new(alloc);
    for item in all.as_slice() {
        copy.push(copy_numbers(alloc, item)?)?;
    }
    Ok(copy)
}

fn copy_fill(fill: &Fill) -> Result<Fill, Memory>
    ensures { IfOk result (λ copy. copy ≡ fill.now) }
{
    match fill {
        Fill::Absent => Ok(Fill::Absent),
        Fill::Literal(value) => Ok(Fill::Literal(value.share()?)),
        Fill::Counter => Ok(Fill::Counter),
        Fill::Now => Ok(Fill::Now),
        Fill::Uuid => Ok(Fill::Uuid),
    }
}

fn copy_column(alloc: Global, column: &Column) -> Result<Column, Memory>
    ensures { IfOk result (λ copy. copy ≡ column.now) }
{
    Ok(Column {
        name: column.name.copy(alloc)?,
        stored: column.stored.copy(alloc)?,
        kind: column.kind,
        optional: column.optional,
        fill: copy_fill(&column.fill)?,
        updated: column.updated,
    })
}

fn copy_columns(alloc: Global, all: &Items<Column>) -> Result<Items<Column>, Memory>
    ensures { IfOk result (λ copy. copy ≡ all.now) }
{
    let mut copy = Items::new(alloc);
    for item in all.as_slice() {
        copy.push(copy_column(alloc, item)?)?;
    }
    Ok(copy)
}

fn copy_key(alloc: Global, key: &Key) -> Result<Key, Memory>
    ensures { IfOk result (λ copy. copy ≡ key.now) }
{
    Ok(Key {
        name: key.name.copy(alloc)?,
        columns: copy_numbers(alloc, &key.columns)?,
    })
}

fn copy_keys(alloc: Global, all: &Items<Key>) -> Result<Items<Key>, Memory>
    ensures { IfOk result (λ copy. copy ≡ all.now) }
{
    let mut copy = Items::new(alloc);
    for item in all.as_slice() {
        copy.push(copy_key(alloc, item)?)?;
    }
    Ok(copy)
}

fn copy_fields(alloc: Global, all: &Items<(Text, Field)>) -> Result<Items<(Text, Field)>, Memory>
    ensures { IfOk result (λ copy. copy ≡ all.now) }
{
    let mut copy = Items::new(alloc);
    for item in all.as_slice() {
        copy.push((item.0.copy(alloc)?, item.1))?;
    }
    Ok(copy)
}

fn copy_table(alloc: Global, table: &Table) -> Result<Table, Memory>
    ensures { IfOk result (λ copy. copy ≡ table.now) }
{
    Ok(Table {
        name: table.name.copy(alloc)?,
        stored: table.stored.copy(alloc)?,
        link: table.link,
        columns: copy_columns(alloc, &table.columns)?,
        keys: copy_keys(alloc, &table.keys)?,
        fields: copy_fields(alloc, &table.fields)?,
        indexes: copy_indexes(alloc, &table.indexes)?,
    })
}

/// Equal tables.
pub fn copy_tables(alloc: Global, all: &[Table]) -> Result<Items<Table>, Memory>
    ensures { IfOk result (λ copy. copy ≡ all.now) }
{
    let mut copy = Items::new(alloc);
    for item in all {
        copy.push(copy_table(alloc, item)?)?;
    }
    Ok(copy)
}

fn copy_relation(alloc: Global, relation: &Relation) -> Result<Relation, Memory>
    ensures { IfOk result (λ copy. copy ≡ relation.now) }
{
    Ok(Relation {
        child: relation.child,
        child_field: relation.child_field.copy(alloc)?,
        child_columns: copy_numbers(alloc, &relation.child_columns)?,
        parent: relation.parent,
        parent_field: relation.parent_field.copy(alloc)?,
        parent_columns: copy_numbers(alloc, &relation.parent_columns)?,
        many: relation.many,
        optional: relation.optional,
        on_delete: relation.on_delete,
        on_update: relation.on_update,
    })
}

/// Equal relations.
pub fn copy_relations(alloc: Global, all: &Items<Relation>) -> Result<Items<Relation>, Memory>
    ensures { IfOk result (λ copy. copy ≡ all.now) }
{
    let mut copy = Items::new(alloc);
    for item in all.as_slice() {
        copy.push(copy_relation(alloc, item)?)?;
    }
    Ok(copy)
}

fn copy_link(alloc: Global, link: &Link) -> Result<Link, Memory>
    ensures { IfOk result (λ copy. copy ≡ link.now) }
{
    Ok(Link {
        table: link.table,
        a: link.a,
        a_field: link.a_field.copy(alloc)?,
        b: link.b,
        b_field: link.b_field.copy(alloc)?,
    })
}

/// Equal links.
pub fn copy_links(alloc: Global, all: &Items<Link>) -> Result<Items<Link>, Memory>
    ensures { IfOk result (λ copy. copy ≡ all.now) }
{
    let mut copy = Items::new(alloc);
    for item in all.as_slice() {
        copy.push(copy_link(alloc, item)?)?;
    }
    Ok(copy)
}

fn copy_members(alloc: Global, all: &Items<Text>) -> Result<Items<Text>, Memory>
    ensures { IfOk result (λ copy. copy ≡ all.now) }
{
    let mut copy = Items::new(alloc);
    for item in all.as_slice() {
        copy.push(item.copy(alloc)?)?;
    }
    Ok(copy)
}

fn copy_choice(alloc: Global, choice: &Choice) -> Result<Choice, Memory>
    ensures { IfOk result (λ copy. copy ≡ choice.now) }
{
    Ok(Choice {
        name: choice.name.copy(alloc)?,
        members: copy_members(alloc, &choice.members)?,
    })
}

/// Equal enums.
pub fn copy_choices(alloc: Global, all: &[Choice]) -> Result<Items<Choice>, Memory>
    ensures { IfOk result (λ copy. copy ≡ all.now) }
{
    let mut copy = Items::new(alloc);
    for item in all {
        copy.push(copy_choice(alloc, item)?)?;
    }
    Ok(copy)
}
