//! Showing a row as an answer.
ghost use Rattle.std.specs.Prelude.{◌≡◌, IfOk, slice_get};
ghost use Rattle.qe_base.specs.declared.answer.Answer as answers;
ghost use Rattle.qe_base.specs.declared.query.Pick.{out-Pick};
ghost use Rattle.qe_reading.specs.Shape.{columns_shown, scalar_of};

use qe_base::{Answer, Items, Memory, Pick, Row, Table, Text};
use qe_view::value_in;
use std::alloc::Global;

/// The value in a column, by the column's name.
fn scalar(alloc: Global, table: &Table, column: u16, row: &Row) -> Result<(Text, Answer), Memory>
    ensures { IfOk result (λ one. one ≡ scalar_of (slice_get table.now.columns column) column row.now) }
{
    match sqlite_items::at(table.columns.as_slice(), column as usize) {
        Some(found) => {
            let value = value_in(row, column)?;
            Ok((found.name.copy(alloc)?, Answer::Scalar(found.kind, value)))
        }
        None => Ok((Text::from_str(alloc, "")?, Answer::Null)),
    }
}

/// The picked columns of a row as an answer.
pub fn shape(alloc: Global, table: &Table, pick: &Pick, row: &Row) -> Result<Answer, Memory>
    ensures { IfOk result (λ answer. answer ≡ answers.Object (columns_shown table.now (out-Pick pick.now).columns row.now)) }
{
    let mut members = Items::new(alloc);
    for column in pick.columns.as_slice() {
        members.push(scalar(alloc, table, *column, row)?)?;
    }
    Ok(Answer::Object(members))
}
