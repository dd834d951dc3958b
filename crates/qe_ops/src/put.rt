//! Putting a row into its table.
ghost use Rattle.std.specs.Prelude.{◌≡◌, true, slice_get};
ghost use Rattle.qe_view.specs.Right.{is_row_of};
ghost use Rattle.qe_schema.specs.Fits.{counting, is_counting_column, is_whole_number};
ghost use Rattle.qe_schema.specs.Put.{put_of};
ghost use Rattle.qe_schema.specs.Tables.{id_columns};
ghost use Rattle.qe_ops.specs.Bounds.{one_last, calls_of_put};
ghost use Rattle.qe_ops.specs.Leaves.{Leaves, ChangesOrLeaves, fault_in};
ghost use Rattle.qe_ops.specs.Puts.{IsUnheld, PutsInto, number_at, placed, raised_for, whole_number};
ghost use Rattle.qe_ops.specs.Refusals.{fault_of};

use crate::keys::broken_key;
use crate::model::table_of;
use crate::refusal::Refusal;
use qe_base::{Column, Kind, Row, Rule, Table, TableId, Value};
use qe_schema::Schema;
use qe_view::{ConnFault, View};
use std::alloc::Global;

/// Whether the values of a kind are whole numbers.
fn is_whole(kind: Kind) -> bool
    ensures { result ≡ is_whole_number kind }
{
    match kind {
        Kind::Text => false,
        Kind::Bool => false,
        Kind::Int => true,
        Kind::Big => true,
        Kind::Moment => false,
        Kind::Blob => false,
        Kind::Member(_) => false,
    }
}

/// Whether the column of a number has whole numbers.
fn is_counting(columns: &[Column], number: u16) -> bool
    ensures { result ≡ is_counting_column (slice_get columns.now number) }
{
    match sqlite_items::at(columns, number as usize) {
        Some(column) => is_whole(column.kind),
        None => false,
    }
}

/// The column that numbers the rows of a model: an id that is one column of whole numbers.
fn counting_column(model: &Table) -> Option<u16>
    ensures { result ≡ counting model.now.columns (id_columns model.now) }
{
    match model.keys.as_slice() {
        [] => None,
        [id, ..] => match id.columns.as_slice() {
            [] => None,
            [column] => {
                if is_counting(model.columns.as_slice(), *column) {
                    Some(*column)
                } else {
                    None
                }
            }
            [_, _, ..] => None,
        },
    }
}

/// The number that a value is.
fn number_of(value: &Value) -> Option<i64>
    ensures { result ≡ whole_number value.now }
{
    match value {
        Value::Null => None,
        Value::Text(_) => None,
        Value::Bool(_) => None,
        Value::Int(number) => Some(*number),
        Value::Moment(_) => None,
        Value::Blob(_) => None,
        Value::Member(_) => None,
    }
}

/// The number that a row has among those of its model.
fn row_number(model: &Table, row: &Row) -> Option<i64>
    ensures { result ≡ number_at (counting model.now.columns (id_columns model.now)) row.now }
{
    match counting_column(model) {
        None => None,
        Some(column) => match sqlite_items::at(row.values(), column as usize) {
            Some(value) => number_of(value),
            None => None,
        },
    }
}

/// Raises the counter of a model to the number of a row, where that is greater.
fn raise_counter<V: View>(
    schema: &Schema,
    table: TableId,
    row: &Row,
    view: &mut V,
) -> Result<(), ConnFault>
    requires stands { V.stands view.old }
    requires schema { (V.seen view.old).schema ≡ schema.now }
    requires right { is_row_of schema.now table.0 row.now ≡ true }
    ensures writes { ChangesOrLeaves (raised_for schema.now table.0 row.now) (V.seen view.old) (V.seen view.new) result }
    ensures stands { V.stands view.new }
    ensures leaves { Leaves one_last (V.seen view.old) (V.seen view.new) (fault_in result) }
{
    let model = table_of(schema, table);
    match row_number(model, row) {
        None => Ok(()),
        Some(number) => {
            let last = view.last(table)?;
            if number <= last {
                return Ok(());
            }
            view.raise(table, number)?;
            Ok(())
        }
    }
}

/// Puts a row none of whose keys is held. The counter is raised first, so that the tables fit in between too.
fn put_unheld<V: View>(
    schema: &Schema,
    table: TableId,
    row: Row,
    view: &mut V,
) -> Result<(), ConnFault>
    requires stands { V.stands view.old }
    requires schema { (V.seen view.old).schema ≡ schema.now }
    requires right { is_row_of schema.now table.0 row ≡ true }
    requires unheld { IsUnheld schema.now table.0 row (V.seen view.old).now }
    ensures writes { ChangesOrLeaves (placed schema.now table.0 row) (V.seen view.old) (V.seen view.new) result }
    ensures stands { V.stands view.new }
    ensures leaves { Leaves one_last (V.seen view.old) (V.seen view.new) (fault_in result) }
{
    let before = view.mark();
    raise_counter(schema, table, &row, view)?;
    match view.put(table, row) {
        Ok(()) => Ok(()),
        Err(fault) => {
            view.back(before);
            Err(fault)
        }
    }
}

/// Puts a new row into its table, and raises the counter to its number. Where a row holds one of its keys it is
/// refused by the first such key; after any refusal nothing is changed.
pub fn put_row<V: View>(
    alloc: Global,
    schema: &Schema,
    table: TableId,
    row: Row,
    view: &mut V,
) -> Result<(), Refusal>
    requires stands { V.stands view.old }
    requires schema { (V.seen view.old).schema ≡ schema.now }
    requires right { is_row_of schema.now table.0 row ≡ true }
    ensures puts { PutsInto (put_of schema.now table.0 row) (V.seen view.old) (V.seen view.new) result }
    ensures stands { V.stands view.new }
    ensures leaves { Leaves (calls_of_put schema.now table.0) (V.seen view.old) (V.seen view.new) (fault_of result) }
{
    match broken_key(alloc, schema, table, &row, view)? {
        Some(key) => Err(Refusal::Rule(Rule::Unique { table, key })),
        None => {
            put_unheld(schema, table, row, view)?;
            Ok(())
        }
    }
}
