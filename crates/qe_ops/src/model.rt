//! The models of a schema.
ghost use Rattle.std.specs.Prelude.{◌≡◌, ◌<◌, ◌≤◌, length};
ghost use Rattle.qe_schema.specs.Keys.{HasKeys};
ghost use Rattle.qe_schema.specs.Tables.{table_at};

use qe_base::{Table, TableId};
use qe_schema::Schema;

/// A table of the schema.
pub fn table_of(schema: &Schema, table: TableId) -> &Table
    requires { table.0 < length schema.now.tables }
    ensures table { result.now ≡ table_at schema.now table.0 }
    ensures few { length result.now.columns ≤ 128 }
    ensures keys { HasKeys result.now }
{
    schema.is_sound();
    schema.table(table).unwrap()
}
