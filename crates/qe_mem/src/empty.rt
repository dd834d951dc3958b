//! Tables of a layout with nothing in them.
ghost use Rattle.std.specs.Prelude.{◌≡◌, ◌∷◌, [], IfOk, OnOk, map};
ghost use Rattle.qe_view.specs.Layouts.{foreign_columns};
ghost use Rattle.qe_mem.specs.Listings.{no_listing};
ghost use Rattle.qe_mem.specs.Kept.{ids_of, sides_by, with_order, with_orders, empty_table};
ghost use Rattle.qe_mem.specs.declared.keyed.Columns.TheVariants.{Listed};

use crate::keyed::Columns;
use crate::listing::Listing;
use crate::orders::Orders;
use crate::table::MemTable;
use qe_base::{Key, Table, TableId};
use qe_text::{Items, Memory};
use qe_view::Layout;
use std::alloc::Global;

/// The columns of a table's ids: those of its first key, and of a link table both.
fn ids_of(table: &Table) -> &[u16]
    ensures { result.now ≡ ids_of table.now }
{
    if table.link {
        return &[0, 1];
    }
    match table.keys.as_slice() {
        [] => &[],
        [key, ..] => key.columns.as_slice(),
    }
}

/// Rows by the columns of a key, and then by those of ids.
fn by_key(alloc: Global, key: &[u16], ids: &[u16]) -> Result<Listing, Memory>
    ensures { IfOk result (λ listing. listing ≡ no_listing (Listed key.now ids.now)) }
{
    let key = Items::from_slice(alloc, key)?;
    let id = Items::from_slice(alloc, ids)?;
    Listing::new(alloc, Columns::Listed { key, id })
}

/// One order more, unless rows go by these columns already.
fn keep_by(alloc: Global, orders: &mut Orders, ids: &[u16], key: &[u16]) -> Result<(), Memory>
    ensures { OnOk result (orders.new ≡ with_order ids.now key.now orders.old) }
{
    if key == ids || orders.by(key).is_some() {
        return Ok(());
    }
    orders.add(by_key(alloc, key, ids)?)
}

/// An order more for each key.
fn keep_keys(alloc: Global, orders: &mut Orders, ids: &[u16], keys: &[Key]) -> Result<(), Memory>
    ensures { OnOk result (orders.new ≡ with_orders ids.now (map (λ key. key.columns) keys.now) orders.old) }
{
    for key in keys {
        keep_by(alloc, orders, ids, key.columns.as_slice())?;
    }
    Ok(())
}

/// An order more for each index.
fn keep_indexes(
    alloc: Global,
    orders: &mut Orders,
    ids: &[u16],
    indexes: &[Items<u16>],
) -> Result<(), Memory>
    ensures { OnOk result (orders.new ≡ with_orders ids.now indexes.now orders.old) }
{
    for index in indexes {
        keep_by(alloc, orders, ids, index.as_slice())?;
    }
    Ok(())
}

/// An order more for each foreign key of a table.
fn keep_foreign(
    alloc: Global,
    orders: &mut Orders,
    ids: &[u16],
    layout: &Layout,
    table: TableId,
) -> Result<(), Memory>
    ensures { OnOk result (orders.new ≡ with_orders ids.now (foreign_columns table.0 layout.now.foreign_keys) orders.old) }
{
    layout.is_of_schema();
    let mut number = 0;
    'keys: while let Some(columns) = layout.foreign(table, number) {
        keep_by(alloc, orders, ids, columns)?;
        number += 1;
    }
    Ok(())
}

/// An order more for each side, if it is a link table.
fn keep_sides(alloc: Global, orders: &mut Orders, ids: &[u16], link: bool) -> Result<(), Memory>
    ensures { OnOk result (orders.new ≡ with_orders ids.now (sides_by link) orders.old) }
{
    if !link {
        return Ok(());
    }
    keep_by(alloc, orders, ids, &[0])?;
    keep_by(alloc, orders, ids, &[1])
}

/// A table with nothing in it, which is kept by all that its rows are looked up by.
pub fn empty_table(
    alloc: Global,
    layout: &Layout,
    number: TableId,
    table: &Table,
) -> Result<MemTable, Memory>
    ensures { IfOk result (λ kept. kept ≡ empty_table layout.now number.0 table.now) }
{
    let ids = ids_of(table);
    let mut orders = Orders::new(alloc);
    keep_keys(alloc, &mut orders, ids, table.keys.as_slice())?;
    keep_foreign(alloc, &mut orders, ids, layout, number)?;
    keep_indexes(alloc, &mut orders, ids, table.indexes.as_slice())?;
    keep_sides(alloc, &mut orders, ids, table.link)?;
    Ok(MemTable {
        link: table.link,
        rows: by_key(alloc, ids, &[])?,
        orders,
        last: 0,
    })
}
