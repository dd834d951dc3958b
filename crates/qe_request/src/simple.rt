//! Which models requests are carried out on so far.
ghost use Rattle.std.specs.Prelude.{◌≡◌};
ghost use Rattle.std.specs.List.{list_all};
ghost use Rattle.qe_schema.specs.Tables.{id_columns as columns_of_id};
ghost use Rattle.qe_reading.specs.CarriedOut as simple;

use qe_base::{Column, Fill, Kind, Table};

fn is_simple_kind(kind: Kind) -> bool
    ensures { result ≡ simple.is_simple_kind kind }
{
    match kind {
        Kind::Text => true,
        Kind::Bool => false,
        Kind::Int => true,
        Kind::Big => false,
        Kind::Moment => false,
        Kind::Blob => false,
        Kind::Member(_) => false,
    }
}

fn has_no_fill(fill: &Fill) -> bool
    ensures { result ≡ simple.has_no_fill fill.now }
{
    match fill {
        Fill::Absent => true,
        Fill::Literal(_) => false,
        Fill::Counter => false,
        Fill::Now => false,
        Fill::Uuid => false,
    }
}

fn is_simple_column(column: &Column) -> bool
    ensures { result ≡ simple.is_simple_column column.now }
{
    is_simple_kind(column.kind) && !column.optional && has_no_fill(&column.fill) && !column.updated
}

fn are_simple(columns: &[Column]) -> bool
    ensures { result ≡ list_all simple.is_simple_column columns.now }
{
    columns.iter().all(|column| is_simple_column(column))
}

/// The columns of a table's id, which is its first key.
pub fn id_columns(table: &Table) -> &[u16]
    ensures { result.now ≡ columns_of_id table.now }
{
    match table.keys.as_slice() {
        [] => &[],
        [key, ..] => key.columns.as_slice(),
    }
}

/// Whether this is a model of required texts and numbers without fill, whose id is one of them.
pub fn is_simple(table: &Table) -> bool
    ensures { result ≡ simple.is_simple table.now }
{
    !table.link && are_simple(table.columns.as_slice()) && id_columns(table).len() == 1
}
