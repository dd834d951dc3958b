//! What is made by the numbers of rows: texts, the lines of creates, keys and tests.
ghost use Rattle.std.specs.Prelude.{◌≡◌, ◌∷◌, [], ◌<◌, ◌≤◌, IfOk, string_bytes, pos};
ghost use Rattle.qe_base.specs.declared.value.Value.TheVariants as value;
ghost use Rattle.bench_storage.specs.Made.{create_line, seven_in_a_hundred, text_of};

use crate::words::Shape;
use qe_base::{ColumnTest, Items, Like, Memory, Row, Test, Text, Value};
use std::alloc::{AllocError, Global};

/// The columns of the rows.
pub const ID: u16 = 0;

pub const FIRST: u16 = 1;

pub const SECOND: u16 = 2;

/// The front of a schema's text.
const HEAD: &str =
    "datasource d {\nprovider = \"sqlite\"\nrelationMode = \"prisma\"\n}\nmodel Item {\nid Int @id\n";

const PLAIN: &str = "a String\nb String\n}\n";

const UNIQUE: &str = "a String\nb String @unique\n}\n";

const FOREIGN: &str =
    "a String\nb String @unique\nowner Item @relation(\"own\", fields: [a], references: [b])\nitems Item[] @relation(\"own\")\n}\n";

/// The text of a schema.
pub fn schema_text(alloc: Global, shape: Shape) -> Result<String, AllocError> {
    let mut text = String::from_str(alloc, HEAD)?;
    text.push_str(match shape {
        Shape::Plain => PLAIN,
        Shape::Unique => UNIQUE,
        Shape::Foreign => FOREIGN,
    })?;
    Ok(text)
}

/// The second text of the row of a number: 12 bytes, of which the last four are the same in one row of a hundred.
pub fn text_of(alloc: Global, number: u32) -> Result<String, AllocError>
    ensures { IfOk result (λ text. string_bytes text ≡ text_of number) }
{
    let front = 10_000_000 + number / 100;
    let back = 100 + number % 100;
    format!(in alloc; "{front}.{back}")
}

/// The line of a create of the row of a number. Three rows have the second text of one as their first.
pub fn create_line(alloc: Global, number: u32) -> Result<String, AllocError>
    ensures { IfOk result (λ line. string_bytes line ≡ create_line number) }
{
    let first = text_of(alloc, number / 3)?;
    let second = text_of(alloc, number)?;
    format!(in alloc;
        "{{\"modelName\":\"Item\",\"action\":\"create\",\"query\":{{\"arguments\":{{\"data\":{{\"id\":{number},\"a\":\"{first}\",\"b\":\"{second}\"}}}}}}}}"
    )
}

/// A value by itself, as a key has it.
fn key_of(alloc: Global, value: Value) -> Result<Row, Memory>
    ensures { IfOk result (λ key. key.values ≡ value ∷ []) }
{
    let mut values = Items::new(alloc);
    values.push(value)?;
    Row::new(alloc, values)
}

/// The id of the row of a number.
pub fn id_key(alloc: Global, number: u32) -> Result<Row, Memory>
    ensures { IfOk result (λ key. key.values ≡ value.Int (pos number) ∷ []) }
{
    key_of(alloc, Value::Int(i64::from(number)))
}

/// The second text of the row of a number, as a key.
pub fn text_key(alloc: Global, number: u32) -> Result<Row, Memory>
    ensures { IfOk result (λ key. key.values ≡ value.Text (text_of number) ∷ []) }
{
    let text = text_of(alloc, number)?;
    key_of(alloc, Value::text(alloc, text.as_str())?)
}

/// The one test of a scan: that the second text contains what it does in one row of a hundred.
pub fn scan_tests(alloc: Global) -> Result<Items<ColumnTest>, Memory>
    ensures { IfOk result (λ tests. tests ≡ seven_in_a_hundred ∷ []) }
{
    let mut tests = Items::new(alloc);
    tests.push(ColumnTest {
        column: SECOND,
        test: Test::Like(Like::Inside, Text::from_str(alloc, ".107")?),
    })?;
    Ok(tests)
}

/// The number of a row that is read at a turn: the turns go far apart, and over all rows.
pub fn number_at(turn: u32, rows: u32) -> u32
    ensures { 0 < rows → result < rows }
{
    let at = u64::from(turn).wrapping_mul(7_919);
    match at.checked_rem(u64::from(rows)) {
        Some(number) => number as u32,
        None => 0,
    }
}
