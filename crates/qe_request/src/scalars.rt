//! The values of columns.
ghost use Rattle.std.specs.Prelude.{◌≡◌, ◌≤◌, length, map, slice_get, option_and_then, IfOk};
ghost use Rattle.std.specs.List.{enumerate_from};
ghost use Rattle.serde_json.specs.Find.{get, as_number, as_i64};
ghost use Rattle.serde_json.specs.View.{view};
ghost use Rattle.qe_scalars.specs.Numbers.{is_small as fits_small};
ghost use Rattle.qe_forms.specs.Request.{value_of as value_by, all_of, given_in, values_of as values_by, value_at_column, small_number};

use crate::members::{alone, names_columns};
use qe_base::{Column, Items, Kind, Memory, Value};
use serde_json::Value as Json;
use std::alloc::Global;

const LEAST: i64 = -2_147_483_648;

const GREATEST: i64 = 2_147_483_647;

fn is_small(number: i64) -> bool
    ensures { result ≡ fits_small number }
{
    LEAST <= number && number <= GREATEST
}

fn whole_number(json: &Json) -> Option<Value>
    ensures { result ≡ value_by Kind.Int (view json.now) }
{
    match json.as_i64() {
        Some(number) if is_small(number) => Some(Value::Int(number)),
        _ => None,
    }
}

fn value_of(alloc: Global, kind: Kind, json: &Json) -> Result<Option<Value>, Memory>
    ensures { IfOk result (λ found. found ≡ value_by kind (view json.now)) }
{
    match kind {
        Kind::Text => match json.as_str() {
            Some(text) => Ok(Some(Value::text(alloc, text)?)),
            None => Ok(None),
        },
        Kind::Bool => Ok(None),
        Kind::Int => Ok(whole_number(json)),
        Kind::Big => Ok(None),
        Kind::Moment => Ok(None),
        Kind::Blob => Ok(None),
        Kind::Member(_) => Ok(None),
    }
}

fn given_for(alloc: Global, column: &Column, json: &Json) -> Result<Option<Value>, Memory>
    ensures { IfOk result (λ found. found ≡ option_and_then (value_by column.now.kind) (get column.now.name (view json.now))) }
{
    match json.get(column.name.as_str()) {
        Some(found) => value_of(alloc, column.kind, found),
        None => Ok(None),
    }
}

#[tactic(auto, using(crate::proofs::Given::all_more))]
fn all_given(
    alloc: Global,
    columns: &[Column],
    json: &Json,
) -> Result<Option<Items<(u16, Value)>>, Memory>
    requires { length columns.now ≤ 128 }
    ensures { IfOk result (λ found. found ≡ all_of (map (given_in (view json.now)) (enumerate_from 0 columns.now))) }
{
    let mut values = Items::new(alloc);
    for (number, column) in columns.iter().enumerate() {
        let Some(value) = given_for(alloc, column, json)? else {
            return Ok(None);
        };
        values.push((number as u16, value))?;
    }
    Ok(Some(values))
}

/// A value for each column, by the columns' names, where the object has nothing else.
pub fn values_of(
    alloc: Global,
    columns: &[Column],
    json: &Json,
) -> Result<Option<Items<(u16, Value)>>, Memory>
    requires { length columns.now ≤ 128 }
    ensures { IfOk result (λ found. found ≡ values_by columns.now (view json.now)) }
{
    if names_columns(json, columns) {
        all_given(alloc, columns, json)
    } else {
        Ok(None)
    }
}

/// The value of one column, by its name, where the object has nothing else.
pub fn value_at(
    alloc: Global,
    columns: &[Column],
    number: u16,
    json: &Json,
) -> Result<Option<Value>, Memory>
    ensures { IfOk result (λ found. found ≡ value_at_column (slice_get columns.now number) (view json.now)) }
{
    let Some(column) = sqlite_items::at(columns, number as usize) else {
        return Ok(None);
    };
    match alone(json, column.name.as_str()) {
        Some(found) => value_of(alloc, column.kind, found),
        None => Ok(None),
    }
}
