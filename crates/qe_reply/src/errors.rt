//! Errors as JSON.
ghost use Rattle.std.specs.Prelude.{◌≡◌, map, slice_get, codes, IfOk};
ghost use Rattle.serde_json.specs.Data.{string, array, object, member, no_members, put};
ghost use Rattle.serde_json.specs.View.{view, items_of, items_view, members_view};
ghost use Rattle.qe_schema.specs.Tables.{table_at};
ghost use Rattle.qe_reading.specs.Page.{columns_of};
ghost use Rattle.qe_forms.specs.Reply.{single, indexed_data, column_name, names_data, rule_data, connector_data, stored_column as stored_name, misfit_data, fault_data, unseen_data};

use qe_base::{Column, Memory, OpFault, Rule, Table, TableId};
use qe_schema::Schema;
use serde_json::{Map, Value as Json};
use std::alloc::Global;

fn begun_error(alloc: Global, cause: &str, code: &str) -> Result<Map<String, Json>, Memory>
    ensures { IfOk result (λ members. members_view members.entries ≡ member (codes "cause") (string cause.now) (member (codes "code") (string code.now) no_members)) }
{
    let mut members = Map::new(alloc);
    let cause = Json::try_from_str(alloc, cause)?;
    serde_json::put(&mut members, alloc, "cause", cause)?;
    let code = Json::try_from_str(alloc, code)?;
    serde_json::put(&mut members, alloc, "code", code)?;
    Ok(members)
}

fn ended_error(
    alloc: Global,
    mut members: Map<String, Json>,
    meta: Map<String, Json>,
) -> Result<Json, Memory>
    ensures { IfOk result (λ json. view json ≡ single (codes "error") (object (put (codes "meta") (object (members_view meta.entries)) (members_view members.entries)))) }
{
    serde_json::put(&mut members, alloc, "meta", Json::Object(meta))?;
    let mut error = Map::new(alloc);
    serde_json::put(&mut error, alloc, "error", Json::Object(members))?;
    Ok(Json::Object(error))
}

/// An error with its cause and code, in the operation of an index where one is given.
pub fn error_json(
    alloc: Global,
    index: Option<u64>,
    cause: &str,
    code: &str,
    meta: Map<String, Json>,
) -> Result<Json, Memory>
    ensures { IfOk result (λ json. view json ≡ indexed_data index cause.now code.now (members_view meta.entries)) }
{
    let mut members = begun_error(alloc, cause, code)?;
    match index {
        None => ended_error(alloc, members, meta),
        Some(index) => {
            serde_json::put(&mut members, alloc, "index", Json::from(index))?;
            ended_error(alloc, members, meta)
        }
    }
}

/// The name of a table.
pub fn model_name(schema: &Schema, table: TableId) -> &str
    ensures { result.now ≡ (table_at schema.now table.0).name }
{
    match schema.table(table) {
        Some(table) => table.name.as_str(),
        None => "",
    }
}

fn model_meta(alloc: Global, schema: &Schema, table: TableId) -> Result<Map<String, Json>, Memory>
    ensures { IfOk result (λ meta. members_view meta.entries ≡ member (codes "model") (string (table_at schema.now table.0).name) no_members) }
{
    let mut meta = Map::new(alloc);
    let name = Json::try_from_str(alloc, model_name(schema, table))?;
    serde_json::put(&mut meta, alloc, "model", name)?;
    Ok(meta)
}

fn column_json(alloc: Global, columns: &[Column], column: u16) -> Result<Json, Memory>
    ensures { IfOk result (λ json. view json ≡ column_name (slice_get columns.now column)) }
{
    match sqlite_items::at(columns, column as usize) {
        Some(column) => Ok(Json::try_from_str(alloc, column.name.as_str())?),
        None => Ok(Json::try_from_str(alloc, "")?),
    }
}

fn names_json(alloc: Global, columns: &[Column], numbers: &[u16]) -> Result<Json, Memory>
    ensures { IfOk result (λ json. view json ≡ array (items_of (map (λ column. column_name (slice_get columns.now column)) numbers.now))) }
{
    let mut names = Vec::new(alloc);
    for number in numbers {
        let name = column_json(alloc, columns, *number)?;
        names.push(name)?;
    }
    Ok(Json::Array(names))
}

fn key_columns(table: &Table, key: u16) -> &[u16]
    ensures { result.now ≡ columns_of (slice_get table.now.keys key) }
{
    match sqlite_items::at(table.keys.as_slice(), key as usize) {
        Some(key) => key.columns.as_slice(),
        None => &[],
    }
}

fn target_json(alloc: Global, schema: &Schema, table: TableId, key: u16) -> Result<Json, Memory>
    ensures { IfOk result (λ json. view json ≡ names_data (table_at schema.now table.0) (columns_of (slice_get (table_at schema.now table.0).keys key))) }
{
    match schema.table(table) {
        Some(table) => names_json(alloc, table.columns.as_slice(), key_columns(table, key)),
        None => Ok(Json::Array(Vec::new(alloc))),
    }
}

/// No operation breaks the other rules yet, and null stands for their error.
fn rule_json(
    alloc: Global,
    schema: &Schema,
    index: Option<u64>,
    broken: Rule,
) -> Result<Json, Memory>
    ensures { IfOk result (λ json. view json ≡ rule_data schema.now index broken) }
{
    match broken {
        Rule::Unique { table, key } => {
            let mut meta = model_meta(alloc, schema, table)?;
            let target = target_json(alloc, schema, table, key)?;
            serde_json::put(&mut meta, alloc, "target", target)?;
            error_json(alloc, index, "unique", "P2002", meta)
        }
        Rule::Required { .. } => Ok(Json::Null),
        Rule::Unconnected { .. } => Ok(Json::Null),
        Rule::Range { .. } => Ok(Json::Null),
        Rule::Absent { table } => {
            let meta = model_meta(alloc, schema, table)?;
            error_json(alloc, index, "absent", "P2025", meta)
        }
        Rule::Dangling { .. } => Ok(Json::Null),
    }
}

/// The error of a connector that failed, with its count of faults before and after.
fn connector_json(
    alloc: Global,
    index: Option<u64>,
    before: u64,
    after: u64,
) -> Result<Json, Memory>
    ensures { IfOk result (λ json. view json ≡ connector_data index before after) }
{
    let mut meta = Map::new(alloc);
    serde_json::put(&mut meta, alloc, "after", Json::from(after))?;
    serde_json::put(&mut meta, alloc, "before", Json::from(before))?;
    error_json(alloc, index, "connector", "E1", meta)
}

fn stored_table(schema: &Schema, table: TableId) -> &str
    ensures { result.now ≡ (table_at schema.now table.0).stored }
{
    match schema.table(table) {
        Some(table) => table.stored.as_str(),
        None => "",
    }
}

fn stored_among(columns: &[Column], column: u16) -> &str
    ensures { result.now ≡ stored_name (slice_get columns.now column) }
{
    match sqlite_items::at(columns, column as usize) {
        Some(column) => column.stored.as_str(),
        None => "",
    }
}

fn stored_column(schema: &Schema, table: TableId, column: u16) -> &str
    ensures { result.now ≡ stored_name (slice_get (table_at schema.now table.0).columns column) }
{
    match schema.table(table) {
        Some(table) => stored_among(table.columns.as_slice(), column),
        None => "",
    }
}

fn misfit_json(
    alloc: Global,
    schema: &Schema,
    index: Option<u64>,
    table: TableId,
    column: u16,
) -> Result<Json, Memory>
    ensures { IfOk result (λ json. view json ≡ misfit_data index (table_at schema.now table.0) column) }
{
    let mut meta = Map::new(alloc);
    let name = Json::try_from_str(alloc, stored_column(schema, table, column))?;
    serde_json::put(&mut meta, alloc, "column", name)?;
    let name = Json::try_from_str(alloc, stored_table(schema, table))?;
    serde_json::put(&mut meta, alloc, "table", name)?;
    error_json(alloc, index, "misfit", "P2023", meta)
}

/// The error of an operation that is refused.
pub fn fault_json(
    alloc: Global,
    schema: &Schema,
    index: Option<u64>,
    fault: OpFault,
) -> Result<Json, Memory>
    ensures { IfOk result (λ json. view json ≡ fault_data schema.now index fault) }
{
    match fault {
        OpFault::Rule(broken) => rule_json(alloc, schema, index, broken),
        OpFault::Connector { before, after } => connector_json(alloc, index, before, after),
        OpFault::Misfit { table, column } => misfit_json(alloc, schema, index, table, column),
        OpFault::Memory => error_json(alloc, None, "memory", "E0", Map::new(alloc)),
    }
}

/// The error of a caller that says to have seen an entry which isn't before its place.
pub fn unseen_json(alloc: Global, asked: u64, place: u64) -> Result<Json, Memory>
    ensures { IfOk result (λ json. view json ≡ unseen_data asked place) }
{
    let mut meta = Map::new(alloc);
    serde_json::put(&mut meta, alloc, "asked", Json::from(asked))?;
    serde_json::put(&mut meta, alloc, "place", Json::from(place))?;
    error_json(alloc, None, "unseen", "E2", meta)
}
