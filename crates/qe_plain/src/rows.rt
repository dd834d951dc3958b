//! What is found by going over rows.
ghost use Rattle.std.specs.Prelude.{◌≡◌, ◌++◌, IfOk, map, filter, not};
ghost use Rattle.std.specs.Option.{option_copied};
ghost use Rattle.std.specs.Ordering.{is_lt, is_gt};
ghost use Rattle.qe_base.specs.Values.{value_cmp};
ghost use Rattle.qe_schema.specs.Columns.{value_at, at_columns, are_same, values_cmp};
ghost use Rattle.qe_schema.specs.Put.{put_among};
ghost use Rattle.qe_schema.specs.Tables.{id_columns, id_of};
ghost use Rattle.qe_view.specs.After.{without_id, pair_row, is_from, turned, page_among};

use qe_base::{Row, Table, Value};
use qe_text::{Items, Memory};
use qe_view::{has_values, id_row, pair_row};
use std::alloc::Global;
use std::cmp::Ordering;

/// The columns of a table's id, which is its first key.
fn id_columns(shape: &Table) -> &[u16]
    ensures { result.now ≡ id_columns shape.now }
{
    match shape.keys.as_slice() {
        [] => &[],
        [key, ..] => key.columns.as_slice(),
    }
}

/// How the value in a column stands to another.
fn compare_value(column: u16, row: &Row, value: &Value) -> Ordering
    ensures { result ≡ value_cmp (value_at row.now column) value.now }
{
    match sqlite_items::at(row.values(), column as usize) {
        Some(kept) => kept.cmp(value),
        None => Value::Null.cmp(value),
    }
}

/// How the values in some columns stand to others: by the first that differ.
fn compare(columns: &[u16], row: &Row, values: &[Value]) -> Ordering
    ensures { result ≡ values_cmp (at_columns columns.now row.now) values.now }
{
    match columns {
        [] => match values {
            [] => Ordering::Equal,
            [_, ..] => Ordering::Less,
        },
        [column, later @ ..] => match values {
            [] => Ordering::Greater,
            [value, others @ ..] => {
                compare_value(*column, row, value).then(compare(later, row, others))
            }
        },
    }
}

/// How the id of a row stands to another id.
fn compare_id(shape: &Table, row: &Row, id: &Row) -> Ordering
    ensures { result ≡ values_cmp (id_of shape.now row.now) id.now.values }
{
    compare(id_columns(shape), row, id.values())
}

/// The same rows for one more owner.
fn shared(alloc: Global, rows: &[Row]) -> Result<Vec<Row>, Memory>
    ensures { IfOk result (λ shared. shared.items ≡ rows.now) }
{
    let mut shared = Vec::new(alloc);
    for row in rows {
        shared.push(row.share()?)?;
    }
    Ok(shared)
}

/// Some rows, and behind them some pairs as rows.
pub fn rows_and_pairs(
    alloc: Global,
    rows: &[Row],
    pairs: &[(Value, Value)],
) -> Result<Vec<Row>, Memory>
    ensures { IfOk result (λ all. all.items ≡ rows.now ++ map pair_row pairs.now) }
{
    let mut all = shared(alloc, rows)?;
    for pair in pairs {
        all.push(pair_row(alloc, &pair.0, &pair.1)?)?;
    }
    Ok(all)
}

/// The rows whose ids are less.
fn rows_before(alloc: Global, shape: &Table, rows: &[Row], id: &Row) -> Result<Items<Row>, Memory>
    ensures { IfOk result (λ found. found ≡ filter (λ row. is_lt (values_cmp (id_of shape.now row) id.now.values)) rows.now) }
{
    let mut found = shared(alloc, rows)?;
    found.retain(|row| compare_id(shape, row, id).is_lt());
    Ok(Items::from_vec(found))
}

/// The rows whose ids are greater.
fn rows_behind(alloc: Global, shape: &Table, rows: &[Row], id: &Row) -> Result<Items<Row>, Memory>
    ensures { IfOk result (λ found. found ≡ filter (λ row. is_gt (values_cmp (id_of shape.now row) id.now.values)) rows.now) }
{
    let mut found = shared(alloc, rows)?;
    found.retain(|row| compare_id(shape, row, id).is_gt());
    Ok(Items::from_vec(found))
}

/// The rows with this one at its place.
pub fn with_row(alloc: Global, shape: &Table, rows: &[Row], row: &Row) -> Result<Items<Row>, Memory>
    ensures { IfOk result (λ all. all ≡ put_among shape.now row.now rows.now) }
{
    let id = id_row(alloc, id_columns(shape), row)?;
    let mut all = rows_before(alloc, shape, rows, &id)?;
    all.push(row.share()?)?;
    all.append(rows_behind(alloc, shape, rows, &id)?)?;
    Ok(all)
}

/// The rows but for that of this id.
pub fn without_row(
    alloc: Global,
    shape: &Table,
    rows: &[Row],
    id: &Row,
) -> Result<Items<Row>, Memory>
    ensures { IfOk result (λ found. found ≡ without_id shape.now id.now.values rows.now) }
{
    let mut found = shared(alloc, rows)?;
    found.retain(|row| !has_values(id_columns(shape), id.values(), row));
    Ok(Items::from_vec(found))
}

/// Whether a row has an id or a later one, or an earlier one where it goes backward. With no id each row is
/// meant.
fn is_from(shape: &Table, from: Option<&Row>, backward: bool, row: &Row) -> bool
    ensures { result ≡ is_from shape.now (option_copied from.entry) backward row.now }
{
    match from {
        None => true,
        Some(id) => {
            if backward {
                compare_id(shape, row, id).is_le()
            } else {
                compare_id(shape, row, id).is_ge()
            }
        }
    }
}

fn rows_from(
    alloc: Global,
    shape: &Table,
    rows: &[Row],
    from: Option<&Row>,
    backward: bool,
) -> Result<Vec<Row>, Memory>
    ensures { IfOk result (λ found. found.items ≡ filter (is_from shape.now (option_copied from.entry) backward) rows.now) }
{
    let mut found = shared(alloc, rows)?;
    found.retain(|row| is_from(shape, from, backward, row));
    Ok(found)
}

/// Turns rows, so that the last one comes first, where it goes backward.
fn turn(rows: &mut Vec<Row>, backward: bool)
    ensures { rows.new.items ≡ turned backward rows.old.items }
{
    if backward {
        rows.reverse();
    }
}

/// The first rows from an id, or from the end, at most so many.
pub fn page(
    alloc: Global,
    shape: &Table,
    rows: &[Row],
    from: Option<&Row>,
    backward: bool,
    count: usize,
) -> Result<Items<Row>, Memory>
    ensures { IfOk result (λ found. found ≡ page_among shape.now (option_copied from.entry) backward count rows.now) }
{
    let mut found = rows_from(alloc, shape, rows, from, backward)?;
    turn(&mut found, backward);
    found.truncate(count);
    Ok(Items::from_vec(found))
}
