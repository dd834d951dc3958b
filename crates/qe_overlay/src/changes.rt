//! The changes that make of the tables below those that are seen.
ghost use Rattle.std.specs.Prelude.{◌≡◌, ◌<◌, ◌++◌, length, IfOk, OnOk};
ghost use Rattle.qe_schema.specs.Tables.{is_link as has_pairs};
ghost use Rattle.qe_overlay.specs.Settled.{entry_changes, all_entries, counter_changes, table_changes, stage_changes, settled_by};

use crate::layer::Layer;
use qe_base::{Row, TableId};
use qe_schema::Schema;
use qe_text::{Items, Memory};
use qe_view::{Change, value_in};
use std::alloc::Global;
use std::collections::BTreeMap;

/// The kinds of changes, in the order in which a connector takes them.
#[derive(Clone, Copy, Debug, PartialEq, Eq)]
pub enum Stage {
    Removes,
    Puts,
    Unlinks,
    Links,
    Counters,
}

/// Whether the schema has a link table of this number.
fn is_link(schema: &Schema, table: TableId) -> bool
    ensures { result ≡ has_pairs schema.now table.0 }
{
    match schema.table(table) {
        None => false,
        Some(found) => found.link,
    }
}

/// Appends the changes of a stage for what is entered under an id.
fn push_entry(
    changes: &mut Items<Change>,
    stage: Stage,
    table: TableId,
    id: &Row,
    now: &Option<Row>,
) -> Result<(), Memory>
    ensures { OnOk result (changes.new ≡ changes.old ++ entry_changes stage table id.now now.now) }
{
    match stage {
        Stage::Removes => {
            let id = id.share()?;
            changes.push(Change::Remove { table, id })?;
        }
        Stage::Puts => {
            if let Some(row) = now {
                let row = row.share()?;
                changes.push(Change::Put { table, row })?;
            }
        }
        Stage::Unlinks => {
            let a = value_in(id, 0)?;
            let b = value_in(id, 1)?;
            changes.push(Change::Unlink { table, a, b })?;
        }
        Stage::Links => {
            if let Some(pair) = now {
                let a = value_in(pair, 0)?;
                let b = value_in(pair, 1)?;
                changes.push(Change::Link { table, a, b })?;
            }
        }
        Stage::Counters => {}
    }
    Ok(())
}

/// Appends the changes of a stage for all entries of a table.
fn push_entries(
    changes: &mut Items<Change>,
    stage: Stage,
    table: TableId,
    entries: &BTreeMap<Row, Option<Row>>,
) -> Result<(), Memory>
    ensures { OnOk result (changes.new ≡ changes.old ++ all_entries stage table entries.now.entries) }
{
    for (id, now) in entries {
        push_entry(changes, stage, table, id, now)?;
    }
    Ok(())
}

/// Appends the change of a counter, if it was raised.
fn push_counter(
    changes: &mut Items<Change>,
    table: TableId,
    last: Option<i64>,
) -> Result<(), Memory>
    ensures { OnOk result (changes.new ≡ changes.old ++ counter_changes table last) }
{
    if let Some(last) = last {
        changes.push(Change::Counter { table, last })?;
    }
    Ok(())
}

/// Appends the changes of a stage for a table.
fn push_table(
    changes: &mut Items<Change>,
    stage: Stage,
    table: TableId,
    link: bool,
    layer: &Layer,
) -> Result<(), Memory>
    ensures { OnOk result (changes.new ≡ changes.old ++ table_changes link stage table layer.now) }
{
    match stage {
        Stage::Removes => {
            if link {
                return Ok(());
            }
            push_entries(changes, Stage::Removes, table, &layer.entries)
        }
        Stage::Puts => {
            if link {
                return Ok(());
            }
            push_entries(changes, Stage::Puts, table, &layer.entries)
        }
        Stage::Unlinks => {
            if link {
                return push_entries(changes, Stage::Unlinks, table, &layer.entries);
            }
            Ok(())
        }
        Stage::Links => {
            if link {
                return push_entries(changes, Stage::Links, table, &layer.entries);
            }
            Ok(())
        }
        Stage::Counters => push_counter(changes, table, layer.last),
    }
}

/// Appends the changes of a stage for all tables.
fn push_stage(
    changes: &mut Items<Change>,
    schema: &Schema,
    stage: Stage,
    layers: &[Layer],
) -> Result<(), Memory>
    requires { length layers.now < 65536 }
    ensures { OnOk result (changes.new ≡ changes.old ++ stage_changes schema.now stage layers.now) }
{
    for (number, layer) in layers.iter().enumerate() {
        let table = TableId(number as u16);
        let link = is_link(schema, table);
        push_table(changes, stage, table, link, layer)?;
    }
    Ok(())
}

/// The changes of all stages for all tables.
pub fn all_changes(
    alloc: Global,
    schema: &Schema,
    layers: &[Layer],
) -> Result<Items<Change>, Memory>
    requires { length layers.now < 65536 }
    ensures { IfOk result (λ changes. changes ≡ settled_by schema.now layers.now) }
{
    let mut changes = Items::new(alloc);
    push_stage(&mut changes, schema, Stage::Removes, layers)?;
    push_stage(&mut changes, schema, Stage::Puts, layers)?;
    push_stage(&mut changes, schema, Stage::Unlinks, layers)?;
    push_stage(&mut changes, schema, Stage::Links, layers)?;
    push_stage(&mut changes, schema, Stage::Counters, layers)?;
    Ok(changes)
}
