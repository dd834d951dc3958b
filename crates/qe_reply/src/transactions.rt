//! Answers and refusals of transactions as JSON.
ghost use Rattle.std.specs.Prelude.{◌≡◌, IfOk};
ghost use Rattle.serde_json.specs.Data.{number, unsigned};
ghost use Rattle.serde_json.specs.View.{view};
ghost use Rattle.qe_schema.specs.Tables.{table_at};
ghost use Rattle.qe_forms.specs.Reply.{single, no_transaction_data, expired_data, full_data, conflict_data};

use crate::errors::{error_json, model_name};
use qe_base::{Memory, TableId};
use qe_schema::Schema;
use serde_json::{Map, Value as Json};
use std::alloc::Global;

/// How many transactions may be open at once.
const MOST_OPEN: u64 = 64;

/// An object of one member, a number.
pub fn number_json(alloc: Global, name: &str, found: u64) -> Result<Json, Memory>
    ensures { IfOk result (λ json. view json ≡ single name.now (number (unsigned found))) }
{
    let mut members = Map::new(alloc);
    serde_json::put(&mut members, alloc, name, Json::from(found))?;
    Ok(Json::Object(members))
}

/// The error of a transaction that isn't there, by its number and that of the next one.
pub fn no_transaction_json(
    alloc: Global,
    cause: &str,
    asked: u64,
    next: u64,
) -> Result<Json, Memory>
    ensures { IfOk result (λ json. view json ≡ no_transaction_data cause.now asked next) }
{
    let mut meta = Map::new(alloc);
    serde_json::put(&mut meta, alloc, "asked", Json::from(asked))?;
    serde_json::put(&mut meta, alloc, "next", Json::from(next))?;
    error_json(alloc, None, cause, "P2028", meta)
}

/// The error of a transaction whose deadline is at or before the moment.
pub fn expired_json(alloc: Global, deadline: i64, moment: i64) -> Result<Json, Memory>
    ensures { IfOk result (λ json. view json ≡ expired_data deadline moment) }
{
    let mut meta = Map::new(alloc);
    serde_json::put(&mut meta, alloc, "deadline", Json::from(deadline))?;
    serde_json::put(&mut meta, alloc, "moment", Json::from(moment))?;
    error_json(alloc, None, "expired", "P2028", meta)
}

/// The error of a start while as many transactions are open as may be.
pub fn full_json(alloc: Global) -> Result<Json, Memory>
    ensures { IfOk result (λ json. view json ≡ full_data) }
{
    let mut meta = Map::new(alloc);
    serde_json::put(&mut meta, alloc, "limit", Json::from(MOST_OPEN))?;
    error_json(alloc, None, "full", "P2028", meta)
}

/// The error of a transaction whose table was written by others: by so many units at its start, and now.
pub fn conflict_json(
    alloc: Global,
    schema: &Schema,
    table: TableId,
    start: u64,
    now: u64,
) -> Result<Json, Memory>
    ensures { IfOk result (λ json. view json ≡ conflict_data (table_at schema.now table.0) start now) }
{
    let mut meta = Map::new(alloc);
    serde_json::put(&mut meta, alloc, "now", Json::from(now))?;
    serde_json::put(&mut meta, alloc, "start", Json::from(start))?;
    let name = Json::try_from_str(alloc, model_name(schema, table))?;
    serde_json::put(&mut meta, alloc, "table", name)?;
    error_json(alloc, None, "conflict", "P2034", meta)
}
