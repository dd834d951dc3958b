//! Filling a new row.
ghost use Rattle.std.specs.Prelude.{◌≡◌, ◌≤◌, length, map, unwrap_or, IfOk};
ghost use Rattle.std.specs.List.{enumerate_from};
ghost use Rattle.std.specs.Option.{option_copied};
ghost use Rattle.qe_base.specs.declared.value.Value.TheVariants.{Null};
ghost use Rattle.qe_writing.specs.Fill.{given_for};

use qe_base::{Column, Items, Memory, Row, Value};
use std::alloc::Global;

/// The value that is given for a column.
fn given(column: u16, values: &[(u16, Value)]) -> Option<&Value>
    ensures { option_copied result ≡ given_for column values.now }
{
    for value in values {
        if value.0 == column {
            return Some(&value.1);
        }
    }
    None
}

/// What a new row has in the column of a number: the given value, else null.
fn value_for(number: u16, values: &[(u16, Value)]) -> Result<Value, Memory>
    ensures { IfOk result (λ value. value ≡ unwrap_or (given_for number values.now) Null) }
{
    match given(number, values) {
        Some(value) => value.share(),
        None => Ok(Value::Null),
    }
}

/// A new row of columns without fills: each column's given value, else null.
pub fn fill(alloc: Global, columns: &[Column], values: &[(u16, Value)]) -> Result<Row, Memory>
    requires { length columns.now ≤ 128 }
    ensures { IfOk result (λ row. row.values ≡ map (λ numbered. unwrap_or (given_for numbered.0 values.now) Null) (enumerate_from 0 columns.now)) }
{
    let mut filled = Vec::with_capacity(alloc, columns.len())?;
    for (number, _) in columns.iter().enumerate() {
        filled.push(value_for(number as u16, values)?)?;
    }
    Row::new(alloc, Items::from_vec(filled))
}
