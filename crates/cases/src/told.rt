//! What the connector tells in the end, as lines of text.
ghost use Rattle.std.specs.Prelude.{◌≡◌, IfSome};
ghost use Rattle.qe_base.specs.Schemas.{Schema as SchemaSeen};
ghost use Rattle.qe_cli.specs.Connected.{IsAttached};
ghost use Rattle.qe_cli.specs.Refused.{HasSchema};
ghost use Rattle.qe_view.specs.Attached.{HasTable, shapes_of};
ghost use Rattle.qe_view.specs.Layouts.{layout_of};
ghost use Rattle.qe_view.specs.Right.{has_table};

use crate::case::{Case, Question};
use psl_schema::check;
use psl_text::read_tree;
use qe_base::{Memory, Row, TableId, Value};
use qe_schema::Schema;
use qe_view::Connector;
use std::alloc::{AllocError, Global};

/// A text between quotes.
fn quoted(alloc: Global, text: &str) -> Result<String, AllocError> {
    let mut line = String::from_str(alloc, "\"")?;
    for letter in text.chars() {
        match letter {
            '"' => line.push_str("\\\"")?,
            '\\' => line.push_str("\\\\")?,
            '\n' => line.push_str("\\n")?,
            other => line.push(other)?,
        }
    }
    line.push('"')?;
    Ok(line)
}

/// Bytes by their hexadecimal digits.
fn digits(alloc: Global, bytes: &[u8]) -> Result<String, AllocError> {
    let mut line = String::from_str(alloc, "x")?;
    for byte in bytes {
        let byte = *byte;
        line.push_str(format!(in alloc; "{byte:02x}")?.as_str())?;
    }
    Ok(line)
}

fn shown_value(alloc: Global, value: &Value) -> Result<String, AllocError> {
    match value {
        Value::Null => String::from_str(alloc, "null"),
        Value::Text(text) => quoted(alloc, text.get().as_str()),
        Value::Bool(truth) => format!(in alloc; "{truth}"),
        Value::Int(number) => format!(in alloc; "{number}"),
        Value::Moment(moment) => format!(in alloc; "moment {moment}"),
        Value::Blob(bytes) => digits(alloc, bytes.get().as_slice()),
        Value::Member(member) => format!(in alloc; "member {member}"),
    }
}

/// Appends a line with the values of a row.
fn push_row(alloc: Global, text: &mut Vec<u8>, row: &Row) -> Result<(), AllocError> {
    for (number, value) in row.values().iter().enumerate() {
        if number > 0 {
            text.push(b' ')?;
        }
        let shown = shown_value(alloc, value)?;
        text.extend_from_slice(shown.as_str().as_bytes())?;
    }
    text.push(b'\n')?;
    Ok(())
}

/// Appends a line of a text.
fn push_text(text: &mut Vec<u8>, line: &str) -> Result<(), AllocError> {
    text.extend_from_slice(line.as_bytes())
}

/// Whether a schema has the table of a number.
fn has_table(schema: &Schema, table: TableId) -> bool
    ensures { result ≡ has_table (shapes_of (layout_of schema.now)) table.0 }
{
    table.0 < schema.tables()
}

/// Appends the rows of a table.
fn push_rows<C: Connector>(
    alloc: Global,
    text: &mut Vec<u8>,
    table: TableId,
    tables: &mut C,
) -> Result<(), Memory>
    requires { HasTable (C.seen tables.old) table.0 }
    ensures { (C.seen tables.new).attached ≡ (C.seen tables.old).attached }
{
    match tables.scan(table, &[]) {
        Ok(rows) => {
            for row in rows.rows.as_slice() {
                push_row(alloc, text, row)?;
            }
        }
        Err(_) => push_text(text, "failed\n")?,
    }
    Ok(())
}

/// Appends the counter of a table.
fn push_counter<C: Connector>(
    alloc: Global,
    text: &mut Vec<u8>,
    name: &str,
    table: TableId,
    tables: &mut C,
) -> Result<(), Memory>
    requires { HasTable (C.seen tables.old) table.0 }
    ensures { (C.seen tables.new).attached ≡ (C.seen tables.old).attached }
{
    let line = match tables.last(table) {
        Ok(last) => format!(in alloc; "counter {name} {last}\n")?,
        Err(_) => String::from_str(alloc, "failed\n")?,
    };
    push_text(text, line.as_str())?;
    Ok(())
}

/// Appends the answer to a question about a table.
fn push_table<C: Connector>(
    alloc: Global,
    text: &mut Vec<u8>,
    question: &Question,
    table: TableId,
    tables: &mut C,
) -> Result<(), Memory>
    requires { HasTable (C.seen tables.old) table.0 }
    ensures { (C.seen tables.new).attached ≡ (C.seen tables.old).attached }
{
    let name = question.table.as_str();
    if question.counter {
        return push_counter(alloc, text, name, table, tables);
    }
    push_text(text, format!(in alloc; "rows {name}\n")?.as_str())?;
    push_rows(alloc, text, table, tables)
}

/// Appends the answer to a question.
fn push_answer<C: Connector>(
    alloc: Global,
    text: &mut Vec<u8>,
    question: &Question,
    schema: &Schema,
    tables: &mut C,
) -> Result<(), Memory>
    requires { IsAttached schema.now (C.seen tables.old) }
    ensures { IsAttached schema.now (C.seen tables.new) }
{
    match schema.find(question.table.as_str()) {
        Some(table) if has_table(schema, table) => {
            push_table(alloc, text, question, table, tables)
        }
        _ => {
            push_text(text, "no such table\n")?;
            Ok(())
        }
    }
}

/// The schema of a text that has one.
fn schema_of(alloc: Global, text: &[u8]) -> Option<Schema>
    ensures { IfSome result (HasSchema text.now) }
{
    match read_tree(alloc, text) {
        Ok(tree) => match check(alloc, &tree) {
            Ok(schema) => Some(schema),
            Err(_) => None,
        },
        Err(_) => None,
    }
}

/// The answers to some questions.
fn answers<C: Connector>(
    alloc: Global,
    questions: &[Question],
    schema: &Schema,
    tables: C,
) -> Result<Vec<u8>, Memory>
    requires { IsAttached schema.now (C.seen tables) }
{
    let mut tables = tables;
    let mut text = Vec::new(alloc);
    for question in questions {
        push_answer(alloc, &mut text, question, schema, &mut tables)?;
    }
    Ok(text)
}

/// The answers to a run's questions. There are none where it didn't end well.
pub fn told_of<C: Connector>(
    alloc: Global,
    case: &Case,
    status: u8,
    tables: C,
) -> Result<Vec<u8>, Memory>
    requires { status ≡ 0 → (schema : SchemaSeen) → HasSchema case.now.schema.items schema → IsAttached schema (C.seen tables) }
{
    if case.questions.is_empty() {
        return Ok(Vec::new(alloc));
    }
    match schema_of(alloc, case.schema.as_slice()) {
        Some(schema) if status == 0 => {
            answers(alloc, case.questions.as_slice(), &schema, tables)
        }
        _ => Ok(Vec::from_slice(alloc, b"no tables\n")?),
    }
}
