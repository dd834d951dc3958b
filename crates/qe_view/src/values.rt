//! What rows hold in columns.
ghost use Rattle.std.specs.Prelude.{◌≡◌, ◌∷◌, [], IfOk};
ghost use Rattle.qe_base.specs.Values.{value_eq};
ghost use Rattle.qe_view.specs.After.{is_wanted, pair_row};
ghost use Rattle.qe_schema.specs.Columns.{value_at, is_null, has_null, are_same, at_columns, holds};

use qe_base::{Row, Value};
use qe_text::{Items, Memory};
use std::alloc::Global;

/// The value in a column, null where there is no such column.
pub fn value_in(row: &Row, column: u16) -> Result<Value, Memory>
    ensures { IfOk result (λ value. value ≡ value_at row.now column) }
{
    match sqlite_items::at(row.values(), column as usize) {
        Some(value) => value.share(),
        None => Ok(Value::Null),
    }
}

/// The values in some columns, in the order of the columns.
pub fn values_at(alloc: Global, columns: &[u16], row: &Row) -> Result<Items<Value>, Memory>
    ensures { IfOk result (λ values. values ≡ at_columns columns.now row.now) }
{
    let mut values = Items::new(alloc);
    for column in columns {
        values.push(value_in(row, *column)?)?;
    }
    Ok(values)
}

/// The values in some columns as a row, as an id has them.
pub fn id_row(alloc: Global, columns: &[u16], row: &Row) -> Result<Row, Memory>
    ensures { IfOk result (λ id. id.values ≡ at_columns columns.now row.now) }
{
    let values = values_at(alloc, columns, row)?;
    Row::new(alloc, values)
}

/// A pair as a row of its link table.
pub fn pair_row(alloc: Global, a: &Value, b: &Value) -> Result<Row, Memory>
    ensures { IfOk result (λ row. row ≡ pair_row (a.now, b.now)) }
{
    let mut values = Items::new(alloc);
    values.push(a.share()?)?;
    values.push(b.share()?)?;
    Row::new(alloc, values)
}

/// Whether a value is null.
pub fn is_null(value: &Value) -> bool
    ensures { result ≡ is_null value.now }
{
    match value {
        Value::Null => true,
        Value::Text(_) => false,
        Value::Bool(_) => false,
        Value::Int(_) => false,
        Value::Moment(_) => false,
        Value::Blob(_) => false,
        Value::Member(_) => false,
    }
}

/// Whether one of the values is null.
pub fn has_null(values: &[Value]) -> bool
    ensures { result ≡ has_null values.now }
{
    values.iter().any(|value| is_null(value))
}

/// Whether a row has a value in a column.
fn has_value(column: u16, value: &Value, row: &Row) -> bool
    ensures { result ≡ value_eq (value_at row.now column) value.now }
{
    match sqlite_items::at(row.values(), column as usize) {
        Some(kept) => kept == value,
        None => Value::Null == *value,
    }
}

/// Whether a row has the values in the columns, one for each.
pub fn has_values(columns: &[u16], values: &[Value], row: &Row) -> bool
    ensures { result ≡ are_same (at_columns columns.now row.now) values.now }
{
    match columns {
        [] => values.is_empty(),
        [column, later @ ..] => match values {
            [] => false,
            [value, others @ ..] => {
                has_value(*column, value, row) && has_values(later, others, row)
            }
        },
    }
}

/// Whether a row has the values in the columns, and none of them is null.
pub fn holds(columns: &[u16], values: &[Value], row: &Row) -> bool
    ensures { result ≡ holds columns.now values.now row.now }
{
    !has_null(values) && has_values(columns, values, row)
}

/// Whether a row has one of the keys in the columns.
pub fn is_wanted(columns: &[u16], keys: &[Row], row: &Row) -> bool
    ensures { result ≡ is_wanted columns.now keys.now row.now }
{
    keys.iter()
        .any(|key| has_values(columns, key.values(), row))
}

/// The same rows for one more owner.
pub fn share_rows(alloc: Global, rows: &[Row]) -> Result<Items<Row>, Memory>
    ensures { IfOk result (λ shared. shared ≡ rows.now) }
{
    let mut shared = Items::new(alloc);
    for row in rows {
        shared.push(row.share()?)?;
    }
    Ok(shared)
}
