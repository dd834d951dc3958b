//! Requests, read as operations.
ghost use Rattle.std.specs.Prelude.{◌≡◌, ◌<◌, ◌≤◌, [], ◌∷◌, length, map, codes, option_map, option_and_then, IfOk};
ghost use Rattle.std.specs.List.{enumerate_from};
ghost use Rattle.serde_json.specs.Find.{get};
ghost use Rattle.serde_json.specs.View.{view};
ghost use Rattle.qe_schema.specs.Tables.{table_at};
ghost use Rattle.qe_forms.specs.Request.{is_object_of, alone as only, whole_pick as all_columns, create_of as create_by, find_of as find_by_id, op_by as op_by_action, op_of as op_by_guard, request_of};

use crate::members::{alone, counts, has, text_at};
use crate::scalars::{value_at, values_of};
use crate::simple::{id_columns, is_simple};
use qe_base::{Column, Create, Filter, Items, Memory, Op, Pick, Row, Table, TableId, Unique};
use qe_schema::Schema;
use serde_json::Value as Json;
use std::alloc::Global;

fn column_numbers(alloc: Global, columns: &[Column]) -> Result<Items<u16>, Memory>
    requires { length columns.now ≤ 128 }
    ensures { IfOk result (λ numbers. numbers ≡ map (λ numbered. numbered.0) (enumerate_from 0 columns.now)) }
{
    let mut numbers = Items::new(alloc);
    for (number, _) in columns.iter().enumerate() {
        numbers.push(number as u16)?;
    }
    Ok(numbers)
}

fn whole_pick(alloc: Global, table: &Table) -> Result<Pick, Memory>
    requires { length table.now.columns ≤ 128 }
    ensures { IfOk result (λ pick. pick ≡ all_columns table.now) }
{
    let columns = column_numbers(alloc, table.columns.as_slice())?;
    Ok(Pick {
        columns,
        counts: Items::new(alloc),
        children: Items::new(alloc),
    })
}

/// The create of a table that the data asks for.
pub fn create_of(
    alloc: Global,
    id: TableId,
    table: &Table,
    json: &Json,
) -> Result<Option<Op>, Memory>
    requires { length table.now.columns ≤ 128 }
    ensures { IfOk result (λ found. found ≡ create_by id table.now (view json.now)) }
{
    let Some(values) = values_of(alloc, table.columns.as_slice(), json)? else {
        return Ok(None);
    };
    let pick = whole_pick(alloc, table)?;
    let tree = Create {
        values,
        nested: Items::new(alloc),
    };
    Ok(Some(Op::Create {
        table: id,
        tree,
        pick,
    }))
}

/// The row of a table that the object asks for by its id.
pub fn find_of(alloc: Global, id: TableId, table: &Table, json: &Json) -> Result<Option<Op>, Memory>
    requires { length table.now.columns ≤ 128 }
    ensures { IfOk result (λ found. found ≡ find_by_id id table.now (view json.now)) }
{
    let [number] = id_columns(table) else {
        return Ok(None);
    };
    let Some(found) = value_at(alloc, table.columns.as_slice(), *number, json)? else {
        return Ok(None);
    };
    let pick = whole_pick(alloc, table)?;
    let mut values = Items::new(alloc);
    values.push(found)?;
    let at = Unique {
        key: 0,
        values: Row::new(alloc, values)?,
        extra: Filter::All(Items::new(alloc)),
    };
    Ok(Some(Op::FindUnique {
        table: id,
        at,
        strict: false,
        pick,
    }))
}

fn table_of(schema: &Schema, id: TableId) -> &Table
    requires { id.0 < length schema.now.tables }
    ensures table { result.now ≡ table_at schema.now id.0 }
    ensures few { length result.now.columns ≤ 128 }
{
    schema.is_sound();
    schema.table(id).unwrap()
}

fn op_by(
    alloc: Global,
    id: TableId,
    table: &Table,
    action: &str,
    arguments: &Json,
) -> Result<Option<Op>, Memory>
    requires { length table.now.columns ≤ 128 }
    ensures { IfOk result (λ found. found ≡ op_by_action id table.now action.now (view arguments.now)) }
{
    if action == "create" {
        match alone(arguments, "data") {
            Some(json) => create_of(alloc, id, table, json),
            None => Ok(None),
        }
    } else if action == "findUnique" {
        match alone(arguments, "where") {
            Some(json) => find_of(alloc, id, table, json),
            None => Ok(None),
        }
    } else {
        Ok(None)
    }
}

fn op_of(
    alloc: Global,
    schema: &Schema,
    id: TableId,
    action: &str,
    arguments: &Json,
) -> Result<Option<Op>, Memory>
    requires { id.0 < length schema.now.tables }
    ensures { IfOk result (λ found. found ≡ op_by_guard schema.now id action.now (view arguments.now)) }
{
    let table = table_of(schema, id);
    if !is_simple(table) {
        return Ok(None);
    }
    op_by(alloc, id, table, action, arguments)
}

fn arguments_of(json: &Json) -> Option<&Json>
    ensures { option_map (λ found. view found.now) result ≡ option_and_then (only (codes "arguments")) (get (codes "query") (view json.now)) }
{
    match json.get("query") {
        Some(query) => alone(query, "arguments"),
        None => None,
    }
}

#[tactic(auto, using(crate::proofs::Objects::object_is))]
fn is_request(json: &Json) -> bool
    ensures { result ≡ is_object_of (codes "action" ∷ codes "modelName" ∷ codes "query" ∷ []) (view json.now) }
{
    counts(json, 3) && has(json, "action") && has(json, "modelName") && has(json, "query")
}

/// The operation that a value is a request of, which is carried out so far.
pub fn request(alloc: Global, schema: &Schema, json: &Json) -> Result<Option<Op>, Memory>
    ensures { IfOk result (λ found. found ≡ request_of schema.now (view json.now)) }
{
    if !is_request(json) {
        return Ok(None);
    }
    let Some(name) = text_at(json, "modelName") else {
        return Ok(None);
    };
    let Some(id) = schema.find(name) else {
        return Ok(None);
    };
    let Some(action) = text_at(json, "action") else {
        return Ok(None);
    };
    let Some(arguments) = arguments_of(json) else {
        return Ok(None);
    };
    op_of(alloc, schema, id, action, arguments)
}
