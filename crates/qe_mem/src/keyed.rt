//! Rows that are ordered by some of their columns.
ghost use Rattle.std.specs.Prelude.{◌≡◌, IfOk, map};
ghost use Rattle.std.proofs.Common.{rules};
ghost use Rattle.std.specs.Cmp.Rules.{comparing};
ghost use Rattle.std.specs.Cmp.Lexicographic.{slice_cmp};
ghost use Rattle.qe_base.specs.Values.{value_cmp};
ghost use Rattle.qe_schema.specs.Columns.{value_at, at_columns, values_cmp};
ghost use Rattle.qe_mem.specs.Keys.{key_part, id_part, keyed_cmp, keyed_partial_cmp, keyed_eq};
ghost use Rattle.qe_mem.specs.KeyOrder.{keyed_cmp_total, keyed_eq_equivalence, keyed_partial_order, keyed_partial_equivalence};

use qe_base::{Row, Shared, Value};
use qe_text::{Items, Memory};
use std::cmp::Ordering;

/// By which columns a row is ordered.
#[derive(Drop)]
pub enum Columns {
    /// The row is a key itself, and has no id.
    Whole,
    /// By those of a key, and then by those of the id.
    Listed { key: Items<u16>, id: Items<u16> },
}

/// A row and the columns that it is ordered by.
#[derive(Drop)]
pub struct Keyed {
    pub columns: Shared<Columns>,
    pub row: Row,
}

/// Compares a value with what is in a column, null where there is no such column.
fn compare_with(value: &Value, other: &Row, place: u16) -> Ordering
    ensures { result ≡ value_cmp value.now (value_at other.now place) }
{
    match sqlite_items::at(other.values(), place as usize) {
        Some(kept) => value.cmp(kept),
        None => value.cmp(&Value::Null),
    }
}

/// Compares what is in a column with a value.
fn compare_at(row: &Row, column: u16, value: &Value) -> Ordering
    ensures { result ≡ value_cmp (value_at row.now column) value.now }
{
    match sqlite_items::at(row.values(), column as usize) {
        Some(kept) => kept.cmp(value),
        None => Value::Null.cmp(value),
    }
}

/// Compares what is in two columns.
fn compare_in(row: &Row, column: u16, other: &Row, place: u16) -> Ordering
    ensures { result ≡ value_cmp (value_at row.now column) (value_at other.now place) }
{
    match sqlite_items::at(row.values(), column as usize) {
        Some(kept) => compare_with(kept, other, place),
        None => compare_with(&Value::Null, other, place),
    }
}

fn compare_values(values: &[Value], others: &[Value]) -> Ordering
    ensures { result ≡ values_cmp values.now others.now }
{
    match values {
        [] => match others {
            [] => Ordering::Equal,
            [_, ..] => Ordering::Less,
        },
        [value, later @ ..] => match others {
            [] => Ordering::Greater,
            [other, rest @ ..] => match value.cmp(other) {
                Ordering::Less => Ordering::Less,
                Ordering::Greater => Ordering::Greater,
                Ordering::Equal => compare_values(later, rest),
            },
        },
    }
}

fn compare_listed(columns: &[u16], row: &Row, others: &[u16], other: &Row) -> Ordering
    ensures { result ≡ values_cmp (at_columns columns.now row.now) (at_columns others.now other.now) }
{
    match columns {
        [] => match others {
            [] => Ordering::Equal,
            [_, ..] => Ordering::Less,
        },
        [column, later @ ..] => match others {
            [] => Ordering::Greater,
            [place, rest @ ..] => match compare_in(row, *column, other, *place) {
                Ordering::Less => Ordering::Less,
                Ordering::Greater => Ordering::Greater,
                Ordering::Equal => compare_listed(later, row, rest, other),
            },
        },
    }
}

fn compare_whole(values: &[Value], others: &[u16], other: &Row) -> Ordering
    ensures { result ≡ values_cmp values.now (at_columns others.now other.now) }
{
    match values {
        [] => match others {
            [] => Ordering::Equal,
            [_, ..] => Ordering::Less,
        },
        [value, later @ ..] => match others {
            [] => Ordering::Greater,
            [place, rest @ ..] => match compare_with(value, other, *place) {
                Ordering::Less => Ordering::Less,
                Ordering::Greater => Ordering::Greater,
                Ordering::Equal => compare_whole(later, rest, other),
            },
        },
    }
}

fn compare_to_whole(columns: &[u16], row: &Row, others: &[Value]) -> Ordering
    ensures { result ≡ values_cmp (at_columns columns.now row.now) others.now }
{
    match columns {
        [] => match others {
            [] => Ordering::Equal,
            [_, ..] => Ordering::Less,
        },
        [column, later @ ..] => match others {
            [] => Ordering::Greater,
            [other, rest @ ..] => match compare_at(row, *column, other) {
                Ordering::Less => Ordering::Less,
                Ordering::Greater => Ordering::Greater,
                Ordering::Equal => compare_to_whole(later, row, rest),
            },
        },
    }
}

impl Keyed {
    /// The order of the keys alone.
    pub fn compare_keys(&self, other: &Keyed) -> Ordering
        ensures { result ≡ values_cmp (key_part self.now.columns self.now.row) (key_part other.now.columns other.now.row) }
    {
        match self.columns.get() {
            Columns::Whole => match other.columns.get() {
                Columns::Whole => compare_values(self.row.values(), other.row.values()),
                Columns::Listed { key, .. } => {
                    compare_whole(self.row.values(), key.as_slice(), &other.row)
                }
            },
            Columns::Listed { key, .. } => match other.columns.get() {
                Columns::Whole => {
                    compare_to_whole(key.as_slice(), &self.row, other.row.values())
                }
                Columns::Listed { key: place, .. } => {
                    compare_listed(key.as_slice(), &self.row, place.as_slice(), &other.row)
                }
            },
        }
    }

    fn id_columns(&self) -> &[u16]
        ensures { id_part self.now.columns self.now.row ≡ at_columns result.now self.now.row }
    {
        match self.columns.get() {
            Columns::Whole => &[],
            Columns::Listed { id, .. } => id.as_slice(),
        }
    }

    fn compare_ids(&self, other: &Keyed) -> Ordering
        ensures { result ≡ values_cmp (id_part self.now.columns self.now.row) (id_part other.now.columns other.now.row) }
    {
        compare_listed(self.id_columns(), &self.row, other.id_columns(), &other.row)
    }

    /// The same for one more owner.
    pub fn share(&self) -> Result<Keyed, Memory>
        ensures { IfOk result (λ k. k ≡ self.now) }
    {
        Ok(Keyed {
            columns: self.columns.share()?,
            row: self.row.share()?,
        })
    }
}

/// By the keys, and then by the ids.
impl Ord for Keyed {
    ghost cmp = { keyed_cmp };

    ghost total = { keyed_cmp_total };

    ghost matches_partial_cmp = { Prim.search (comparing, rules) };

    ghost matches_eq = { Prim.search (comparing, rules) };

    fn cmp(&self, other: &Keyed) -> Ordering {
        match self.compare_keys(other) {
            Ordering::Less => Ordering::Less,
            Ordering::Greater => Ordering::Greater,
            Ordering::Equal => self.compare_ids(other),
        }
    }
}

impl PartialOrd for Keyed {
    ghost partial_cmp = { keyed_partial_cmp };

    ghost laws = { keyed_partial_order };

    fn partial_cmp(&self, other: &Keyed) -> Option<Ordering> {
        Some(self.cmp(other))
    }
}

impl Eq for Keyed {
    ghost laws = { keyed_eq_equivalence };
}

impl PartialEq for Keyed {
    ghost eq = { keyed_eq };

    ghost laws = { keyed_partial_equivalence };

    fn eq(&self, other: &Keyed) -> bool {
        self.cmp(other) == Ordering::Equal
    }
}
