//! Keys, and the rows that hold their values.
ghost use Rattle.std.specs.Prelude.{◌≡◌, ◌∷◌, [], ℕ, true, length, slice_get, IfOk, IfSome};
ghost use Rattle.qe_text.specs.Lists.{In};
ghost use Rattle.qe_base.specs.declared.schema.Key.{Key};
ghost use Rattle.qe_view.specs.Right.{can_load, is_row_of};
ghost use Rattle.qe_schema.specs.Keys.{KeyStands};
ghost use Rattle.qe_schema.specs.Put.{broken_key as first_broken_key};
ghost use Rattle.qe_schema.specs.Tables.{table_at, is_model};
ghost use Rattle.qe_reading.specs.Page.{columns_of};
ghost use Rattle.qe_ops.specs.Bounds.{loads_alone};
ghost use Rattle.qe_ops.specs.Leaves.{Leaves, Same, fault_in};
ghost use Rattle.qe_ops.specs.Puts.{FitsTable, is_among, row_having};

use crate::model::table_of;
use qe_base::{Key, Row, Rows, Table, TableId};
use qe_schema::Schema;
use qe_text::Memory;
use qe_view::{ConnFault, View, has_null, id_row};
use std::alloc::Global;

/// The columns of a key, none where there is no such key.
pub fn key_columns(model: &Table, key: u16) -> &[u16]
    ensures { result.now ≡ columns_of (slice_get model.now.keys key) }
{
    match sqlite_items::at(model.keys.as_slice(), key as usize) {
        Some(key) => key.columns.as_slice(),
        None => &[],
    }
}

/// The first of some rows.
fn first(found: Rows) -> Option<Row>
    ensures { result ≡ slice_get found.rows 0 }
{
    let mut rows = found.rows;
    if rows.is_empty() {
        None
    } else {
        Some(rows.remove(0))
    }
}

/// The row of a model that has the values of a key in the columns, if there is one.
pub fn load<V: View>(
    table: TableId,
    columns: &[u16],
    key: Row,
    view: &mut V,
) -> Result<Option<Row>, ConnFault>
    requires stands { V.stands view.old }
    requires model { is_model (V.seen view.old).schema table.0 ≡ true }
    requires can { can_load (V.seen view.old).schema table.0 columns.now (key ∷ []) ≡ true }
    ensures row { IfOk result (λ found. IfSome (V.seen view.old).now (λ tables. found ≡ row_having columns.now key.values (tables.rows table.0))) }
    ensures fits { IfOk result (λ found. IfSome found (λ row. FitsTable (V.seen view.old).schema table.0 row)) }
    ensures same { Same (V.seen view.old) (V.seen view.new) }
    ensures stands { V.stands view.new }
    ensures leaves { Leaves (loads_alone 1) (V.seen view.old) (V.seen view.new) (fault_in result) }
{
    let found = view.load(table, columns, &[key])?;
    Ok(first(found))
}

/// Whether a row of a model has the values that this one has in a key's columns, none of them null. Where one
/// is null, no row is loaded.
fn is_held<V: View>(
    alloc: Global,
    table: TableId,
    key: &Key,
    row: &Row,
    view: &mut V,
) -> Result<bool, ConnFault>
    requires stands { V.stands view.old }
    requires right { is_row_of (V.seen view.old).schema table.0 row.now ≡ true }
    requires key { KeyStands (table_at (V.seen view.old).schema table.0) key.now }
    ensures held { IfOk result (λ held. IfSome (V.seen view.old).now (λ tables. held ≡ is_among key.now.columns row.now (tables.rows table.0))) }
    ensures same { Same (V.seen view.old) (V.seen view.new) }
    ensures stands { V.stands view.new }
    ensures leaves { Leaves (loads_alone 1) (V.seen view.old) (V.seen view.new) (fault_in result) }
{
    let columns = key.columns.as_slice();
    let values = id_row(alloc, columns, row)?;
    if has_null(values.values()) {
        return Ok(false);
    }
    Ok(load(table, columns, values, view)?.is_some())
}

/// A number as that of a key. Past 65,535 there is no room for it, and no schema's text is long
/// enough for so many keys.
fn key_number(number: usize) -> Result<u16, Memory>
    ensures { IfOk result (λ key. key ≡ number) }
{
    match u16::try_from(number) {
        Ok(key) => Ok(key),
        Err(_) => Err(Memory),
    }
}

/// The first of the keys whose values a row of the model has too.
fn first_held<V: View>(
    alloc: Global,
    table: TableId,
    keys: &[Key],
    row: &Row,
    view: &mut V,
) -> Result<Option<u16>, ConnFault>
    requires stands { V.stands view.old }
    requires right { is_row_of (V.seen view.old).schema table.0 row.now ≡ true }
    requires keys { (key : Key) → In key keys.now → KeyStands (table_at (V.seen view.old).schema table.0) key }
    ensures key { IfOk result (λ key. IfSome (V.seen view.old).now (λ tables. key ≡ first_broken_key keys.now 0 row.now (tables.rows table.0))) }
    ensures same { Same (V.seen view.old) (V.seen view.new) }
    ensures stands { V.stands view.new }
    ensures leaves { Leaves (loads_alone (length keys.now)) (V.seen view.old) (V.seen view.new) (fault_in result) }
{
    for (number, key) in keys.iter().enumerate() {
        if is_held(alloc, table, key, row, view)? {
            return Ok(Some(key_number(number)?));
        }
    }
    Ok(None)
}

/// The first key of a model, the id before the others, whose values one of its rows has too.
pub fn broken_key<V: View>(
    alloc: Global,
    schema: &Schema,
    table: TableId,
    row: &Row,
    view: &mut V,
) -> Result<Option<u16>, ConnFault>
    requires stands { V.stands view.old }
    requires schema { (V.seen view.old).schema ≡ schema.now }
    requires right { is_row_of schema.now table.0 row.now ≡ true }
    ensures key { IfOk result (λ key. IfSome (V.seen view.old).now (λ tables. key ≡ first_broken_key (table_at schema.now table.0).keys 0 row.now (tables.rows table.0))) }
    ensures same { Same (V.seen view.old) (V.seen view.new) }
    ensures stands { V.stands view.new }
    ensures leaves { Leaves (loads_alone (length (table_at schema.now table.0).keys)) (V.seen view.old) (V.seen view.new) (fault_in result) }
{
    let model = table_of(schema, table);
    first_held(alloc, table, model.keys.as_slice(), row, view)
}
