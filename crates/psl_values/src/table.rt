//! Tables: the models, then the link tables.
ghost use Rattle.std.specs.Prelude.{◌≡◌, ◌++◌, IfOk, OnOk, map};
ghost use Rattle.psl_sound.specs.SchemaOf as spec;

use crate::link::{link_table, linked};
use crate::numbered::Numbered;
use crate::numbers::Models;
use psl_columns::{Enums, columns, indexes, keys};
use psl_parts::Types;
use psl_relations::{ModelIndex, Pair, TreeIndex, ends, mapped_model, pairs};
use qe_base::Table;
use qe_text::{Items, Memory, Text};
use std::alloc::Global;

fn table<'a>(
    alloc: Global,
    numbered: &Numbered<'_, 'a>,
    index: &'a ModelIndex<'a>,
) -> Result<Table, Memory>
    ensures { IfOk result (λ table. table ≡ spec.table_of numbered.now index.now) }
{
    let types = numbered.types();
    let model = index.model();
    Ok(Table {
        name: model.name.text.copy(alloc)?,
        stored: Text::from_str(alloc, mapped_model(model))?,
        link: false,
        columns: columns(alloc, numbered.enums(), model)?,
        keys: keys(alloc, types, model)?,
        fields: numbered.fields(alloc, index)?,
        indexes: indexes(alloc, types, model)?,
    })
}

/// Appends the tables of models.
fn push_models<'a>(
    alloc: Global,
    tables: &mut Items<Table>,
    numbered: &Numbered<'_, 'a>,
    models: &'a [ModelIndex<'a>],
) -> Result<(), Memory>
    ensures { OnOk result (tables.new ≡ tables.old ++ map (spec.table_of numbered.now) models.now) }
{
    for model in models {
        tables.push(table(alloc, numbered, model)?)?;
    }
    Ok(())
}

/// Appends the link tables of these pairs.
fn push_links(
    alloc: Global,
    tables: &mut Items<Table>,
    enums: &Enums,
    linked: &[&Pair],
) -> Result<(), Memory>
    ensures { OnOk result (tables.new ≡ tables.old ++ map (spec.link_table enums.now) (map (λ pair. pair.now) linked.now)) }
{
    for pair in linked {
        tables.push(link_table(alloc, enums, pair)?)?;
    }
    Ok(())
}

/// The tables of a tree: its models, then the link tables in the order of their first fields.
pub fn tables(alloc: Global, types: &Types) -> Result<Items<Table>, Memory>
    ensures { IfOk result (λ tables. tables ≡ spec.tables_of types.now) }
{
    let tree = TreeIndex::of(alloc, &*types)?;
    let models = Models::of(alloc, tree.types())?;
    let ends = ends(alloc, &tree)?;
    let pairs = pairs(alloc, ends.as_slice())?;
    let linked = linked(alloc, pairs.as_slice())?;
    let numbered = Numbered::of(alloc, &models, ends.as_slice(), linked.as_slice())?;
    let mut tables = Items::new(alloc);
    push_models(alloc, &mut tables, &numbered, tree.all())?;
    push_links(alloc, &mut tables, models.enums(), linked.as_slice())?;
    Ok(tables)
}
