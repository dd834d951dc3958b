//! The statements that make an empty database.
ghost use Rattle.std.specs.Prelude.{◌≡◌, ◌++◌, map, IfOk, OnOk, string_bytes};
ghost use Rattle.std.specs.List.{flat_map};
ghost use Rattle.qe_view.specs.LayoutText as spec;

use qe_base::{Column, Key, Kind, Table};
use qe_text::{Memory, Text};
use std::alloc::Global;

/// The table of the last number that was given out in each table.
const COUNTER: &str =
    "CREATE TABLE \"_qe_counter\" (\"name\" TEXT NOT NULL, \"last\" INTEGER NOT NULL, PRIMARY KEY (\"name\")) STRICT;\n";

/// A name in quotes.
#[tactic(auto, unfolding(crate::specs::LayoutText::quoted))]
fn quoted(alloc: Global, name: &str) -> Result<String, Memory>
    ensures { IfOk result (λ text. string_bytes text ≡ spec.quoted name.now) }
{
    Ok(format!(in alloc; "\"{name}\"")?)
}

/// Texts with commas between them, in parentheses.
#[tactic(auto, using(crate::proofs::Pieces::joined_map), unfolding(crate::specs::LayoutText::listed))]
fn listed(alloc: Global, texts: &[String]) -> Result<String, Memory>
    ensures { IfOk result (λ text. string_bytes text ≡ spec.listed (map string_bytes texts.now)) }
{
    let joined = texts.join(alloc, ", ")?;
    Ok(format!(in alloc; "({joined})")?)
}

/// How SQLite keeps values of a kind.
fn type_name(kind: Kind) -> &'static str
    ensures { result.now ≡ spec.type_name kind }
{
    match kind {
        Kind::Text => "TEXT",
        Kind::Bool => "INTEGER",
        Kind::Int => "INTEGER",
        Kind::Big => "INTEGER",
        Kind::Moment => "INTEGER",
        Kind::Blob => "BLOB",
        Kind::Member(_) => "TEXT",
    }
}

/// What a column says of null.
fn null_text(optional: bool) -> &'static str
    ensures { result.now ≡ spec.null_text optional }
{
    if optional { "" } else { " NOT NULL" }
}

/// What a table has of a column.
#[tactic(auto, unfolding(crate::specs::LayoutText::column_text))]
fn column_text(alloc: Global, column: &Column) -> Result<String, Memory>
    ensures { IfOk result (λ text. string_bytes text ≡ spec.column_text column.now) }
{
    let name = quoted(alloc, column.stored.as_str())?;
    let null = null_text(column.optional);
    Ok(format!(in alloc; "{name} {}{null}", type_name(column.kind))?)
}

/// The stored name of the column of a number.
#[tactic(auto, unfolding(crate::specs::LayoutText::stored_at))]
fn stored_at(columns: &[Column], number: u16) -> &str
    ensures { result.now ≡ spec.stored_at columns.now number }
{
    match columns.get(number as usize) {
        Some(column) => column.stored.as_str(),
        None => "",
    }
}

/// The columns of these numbers.
#[tactic(auto, unfolding(crate::specs::LayoutText::names_text))]
fn names_text(alloc: Global, columns: &[Column], numbers: &[u16]) -> Result<String, Memory>
    ensures { IfOk result (λ text. string_bytes text ≡ spec.names_text columns.now numbers.now) }
{
    let mut names = Vec::new(alloc);
    for number in numbers {
        names.push(quoted(alloc, stored_at(columns, *number))?)?;
    }
    listed(alloc, names.as_slice())
}

/// The first key is the id.
fn key_word(number: usize) -> &'static str
    ensures { result.now ≡ spec.key_word number }
{
    if number == 0 {
        "PRIMARY KEY "
    } else {
        "UNIQUE "
    }
}

/// The key of a number.
#[tactic(auto, unfolding(crate::specs::LayoutText::key_text))]
fn key_text(alloc: Global, columns: &[Column], number: usize, key: &Key) -> Result<String, Memory>
    ensures { IfOk result (λ text. string_bytes text ≡ spec.key_text columns.now (number, key.now)) }
{
    let names = names_text(alloc, columns, key.columns.as_slice())?;
    Ok(format!(in alloc; "{}{names}", key_word(number))?)
}

/// The columns, the id and the uniques.
#[tactic(auto, unfolding(crate::specs::LayoutText::table_parts))]
fn table_parts(alloc: Global, table: &Table) -> Result<Vec<String>, Memory>
    ensures { IfOk result (λ parts. map string_bytes parts.items ≡ spec.table_parts table.now) }
{
    let mut parts = Vec::new(alloc);
    for column in table.columns.as_slice() {
        parts.push(column_text(alloc, column)?)?;
    }
    let keys = table.keys.as_slice();
    for number in 0..keys.len() {
        parts.push(key_text(alloc, table.columns.as_slice(), number, &keys[number])?)?;
    }
    Ok(parts)
}

#[tactic(auto, unfolding(crate::specs::LayoutText::table_text))]
fn table_text(alloc: Global, table: &Table) -> Result<String, Memory>
    ensures { IfOk result (λ text. string_bytes text ≡ spec.table_text table.now) }
{
    let name = quoted(alloc, table.stored.as_str())?;
    let parts = table_parts(alloc, table)?;
    let listed = listed(alloc, parts.as_slice())?;
    Ok(format!(in alloc; "CREATE TABLE {name} {listed} STRICT;\n")?)
}

/// The name of a table's index of a number.
#[tactic(auto, unfolding(crate::specs::LayoutText::index_name))]
fn index_name(alloc: Global, stored: &str, number: usize) -> Result<String, Memory>
    ensures { IfOk result (λ name. string_bytes name ≡ spec.index_name stored.now number) }
{
    Ok(format!(in alloc; "_qe_index_{stored}_{number}")?)
}

/// The index of a number, of these columns.
#[tactic(auto, unfolding(crate::specs::LayoutText::index_text))]
fn index_text(
    alloc: Global,
    table: &Table,
    number: usize,
    columns: &[u16],
) -> Result<String, Memory>
    ensures { IfOk result (λ text. string_bytes text ≡ spec.index_text table.now (number, columns.now)) }
{
    let stored = table.stored.as_str();
    let index = quoted(alloc, index_name(alloc, stored, number)?.as_str())?;
    let name = quoted(alloc, stored)?;
    let names = names_text(alloc, table.columns.as_slice(), columns)?;
    Ok(format!(in alloc; "CREATE INDEX {index} ON {name} {names};\n")?)
}

/// Appends the tables.
fn push_tables(alloc: Global, text: &mut String, tables: &[Table]) -> Result<(), Memory>
    ensures { OnOk result (string_bytes text.new ≡ string_bytes text.old ++ flat_map spec.table_text tables.now) }
{
    for table in tables {
        text.push_str(table_text(alloc, table)?.as_str())?;
    }
    Ok(())
}

/// Appends the indexes of a table, by numbers from 1.
#[tactic(auto, unfolding(crate::specs::LayoutText::indexes_text))]
fn push_indexes(alloc: Global, text: &mut String, table: &Table) -> Result<(), Memory>
    ensures { OnOk result (string_bytes text.new ≡ string_bytes text.old ++ spec.indexes_text table.now) }
{
    let mut number = 0;
    for columns in table.indexes.as_slice() {
        number += 1;
        text.push_str(index_text(alloc, table, number, columns.as_slice())?.as_str())?;
    }
    Ok(())
}

/// Appends the table of the counters.
#[tactic(auto, unfolding(crate::specs::LayoutText::counter_text))]
fn push_counter(text: &mut String) -> Result<(), Memory>
    ensures { OnOk result (string_bytes text.new ≡ string_bytes text.old ++ spec.counter_text) }
{
    text.push_str(COUNTER)?;
    Ok(())
}

/// The statements of these tables.
pub fn statements(alloc: Global, tables: &[Table]) -> Result<Text, Memory>
    ensures { IfOk result (λ text. text ≡ spec.statements_text tables.now) }
{
    let mut text = String::new(alloc);
    push_tables(alloc, &mut text, tables)?;
    push_counter(&mut text)?;
    for table in tables {
        push_indexes(alloc, &mut text, table)?;
    }
    Ok(Text::from_string(text))
}
