//! Whether calls may be made of what is attached with a layout. Each yes is the condition of the call; of keys and
//! tests such are known here as the program makes, and to all others the answer is no.
ghost use Rattle.std.specs.Prelude.{◌≡◌, ◌∷◌, [], true, Some, length, nat_lt};
ghost use Rattle.qe_schema.specs.Fits.{is_text as text_kind, is_of_kind};
ghost use Rattle.qe_base.specs.declared.value.Value.TheVariants as value;
ghost use Rattle.qe_schema.specs.Tables.{column_at};
ghost use Rattle.qe_schema.specs.Tests.{takes_search};
ghost use Rattle.qe_view.specs.Attached.{shapes_of};
ghost use Rattle.qe_view.specs.Right.{has_table as table_there, is_value_of, are_values_of, is_fit_test};
ghost use Rattle.qe_view.specs.Right.{can_load as load_fits, can_scan as scan_fits, can_page as page_fits};

use qe_base::{Column, ColumnTest, Kind, Row, TableId, Test, Value};
use qe_view::Layout;

const LEAST: i64 = -2_147_483_648;

const GREATEST: i64 = 2_147_483_647;

/// Whether columns of a kind have texts, which can be searched.
fn is_text(kind: Kind) -> bool
    ensures text { result ≡ text_kind kind }
    ensures search { result ≡ takes_search kind }
{
    match kind {
        Kind::Text => true,
        Kind::Bool => false,
        Kind::Int => false,
        Kind::Big => false,
        Kind::Moment => false,
        Kind::Blob => false,
        Kind::Member(_) => false,
    }
}

/// Whether this is a number of columns of a kind.
fn takes_number(layout: &Layout, kind: Kind, number: i64) -> bool
    ensures { result ≡ true → is_of_kind layout.now.choices kind (value.Int number) ≡ true }
{
    match kind {
        Kind::Int => LEAST <= number && number <= GREATEST,
        _ => false,
    }
}

/// Whether a text or a number may stand in a column.
fn takes(layout: &Layout, column: &Column, value: &Value) -> bool
    ensures { result ≡ true → is_value_of layout.now.choices (Some column.now) value.now ≡ true }
{
    match value {
        Value::Text(_) => is_text(column.kind),
        Value::Int(number) => takes_number(layout, column.kind, *number),
        _ => false,
    }
}

fn has_table(layout: &Layout, table: TableId) -> bool
    ensures { result ≡ table_there (shapes_of layout.now) table.0 }
{
    table.0 < layout.tables()
}

/// Whether a key is one value, which may stand in the column of a number.
fn is_key(layout: &Layout, columns: &[Column], number: u16, values: &[Value]) -> bool
    ensures within { result ≡ true → nat_lt number (length columns.now) ≡ true }
    ensures values { result ≡ true → are_values_of layout.now.choices columns.now (number ∷ []) values.now ≡ true }
{
    match values {
        [value] => match columns.get(number as usize) {
            Some(column) => takes(layout, column, value),
            None => false,
        },
        _ => false,
    }
}

/// Whether a table may be asked for the rows with a key in a column.
pub fn can_load(layout: &Layout, table: TableId, column: u16, key: &Row) -> bool
    ensures { result ≡ true → load_fits (shapes_of layout.now) table.0 (column ∷ []) (key.now ∷ []) ≡ true }
{
    match layout.shape(table) {
        Some(shape) => {
            has_table(layout, table)
                && is_key(layout, shape.columns.as_slice(), column, key.values())
        }
        None => false,
    }
}

/// Whether a table may be asked for a page from an id, which is one column.
pub fn can_page(layout: &Layout, table: TableId, from: &Row) -> bool
    ensures { result ≡ true → page_fits (shapes_of layout.now) table.0 (Some from.now) ≡ true }
{
    match layout.shape(table) {
        Some(shape) => match shape.keys.as_slice() {
            [key, ..] => match key.columns.as_slice() {
                [number] => {
                    !shape.link && is_key(layout, shape.columns.as_slice(), *number, from.values())
                }
                _ => false,
            },
            [] => false,
        },
        None => false,
    }
}

/// Whether a test is a search of a column of texts.
fn is_search(layout: &Layout, table: TableId, asked: &ColumnTest) -> bool
    ensures { result ≡ true → is_fit_test layout.now.choices asked.now (column_at (shapes_of layout.now) table.0 asked.now.column) ≡ true }
{
    match layout.shape(table) {
        Some(shape) => match &asked.test {
            Test::Like(_, _) => match shape.columns.as_slice().get(asked.column as usize) {
                Some(column) => is_text(column.kind),
                None => false,
            },
            _ => false,
        },
        None => false,
    }
}

/// Whether a table may be asked for the rows that pass tests: none, or one search of a text.
pub fn can_scan(layout: &Layout, table: TableId, tests: &[ColumnTest]) -> bool
    ensures { result ≡ true → scan_fits (shapes_of layout.now) table.0 tests.now ≡ true }
{
    match tests {
        [] => has_table(layout, table),
        [asked] => has_table(layout, table) && is_search(layout, table, asked),
        _ => false,
    }
}
