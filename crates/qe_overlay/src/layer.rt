//! What is entered of one table.
ghost use Rattle.std.specs.Prelude.{◌≡◌, [], ◌++◌, filter, take, reverse, IfOk, OnOk, OnErr, if◌then◌else◌};
ghost use Rattle.std.specs.List.Sorted.{IsStrictlySortedBy};
ghost use Rattle.std.specs.Map.{keys_of, values_of};
ghost use Rattle.std.specs.Option.{option_copied};
ghost use Rattle.qe_base.specs.Values.{row_cmp, value_cmp};
ghost use Rattle.qe_view.specs.After.{is_wanted as has_wanted, is_from as has_id_from, turned};
ghost use Rattle.qe_schema.specs.Columns.{at_columns, value_at, values_cmp};
ghost use Rattle.qe_schema.specs.Tables.{id_columns as columns_of_id};
ghost use Rattle.qe_schema.specs.Tests.{passes as passes_all};
ghost use Rattle.qe_overlay.specs.Fits.{LiesOver, PageLiesOver};
ghost use Rattle.qe_overlay.specs.Laid.{row_if, put_in, untouched};
ghost use Rattle.qe_overlay.specs.Layers.{no_layer, present, over_last};
ghost use Rattle.qe_overlay.specs.Held.{entry_at, with_entry, with_before, with_raised, with_last};

use qe_base::{ColumnTest, Row, Rows, Table, Value};
use qe_text::{Items, Memory};
use qe_view::{id_row, is_wanted, passes};
use std::alloc::Global;
use std::cmp::Ordering;
use std::collections::BTreeMap;
use std::marker::Model;

/// Under each id the row that is there now, or that none is, and a counter that was raised. Contracts see the
/// entries and the counter.
#[derive(Drop)]
pub struct Layer {
    pub entries: BTreeMap<Row, Option<Row>>,
    pub last: Option<i64>,
}

impl Model for Layer {
    ghost use Rattle.qe_overlay.specs.Layers.{Layer};

    ghost Value = { Layer };

    ghost view = { λ l. record { entries = l.entries.entries; last = l.last } };
}

impl Layer {
    /// Nothing is entered.
    pub fn new(alloc: Global) -> Layer
        ensures { result ≡ no_layer }
    {
        Layer {
            entries: BTreeMap::new(alloc),
            last: None,
        }
    }

    /// Enters what stands under an id now, and gives what stood there before.
    pub fn enter(&mut self, id: Row, now: Option<Row>) -> Result<Option<Option<Row>>, Memory>
        ensures before { IfOk result (λ before. before ≡ entry_at id self.old) }
        ensures ok { OnOk result (self.new ≡ with_entry id now self.old) }
        ensures err { OnErr result (self.new ≡ self.old) }
        ensures ordered { IsStrictlySortedBy row_cmp (keys_of self.old.entries) }
    {
        let before = self.entries.insert(id, now)?;
        Ok(before)
    }

    /// Sets back what stood under an id. It takes no memory.
    pub fn set_back(&mut self, id: &Row, before: Option<Option<Row>>)
        ensures { self.new ≡ with_before id.now before self.old }
    {
        match before {
            None => {
                self.entries.remove(id);
            }
            Some(now) => {
                if let Some(entry) = self.entries.get_mut(id) {
                    *entry = now;
                }
            }
        }
    }

    /// Raises the counter, and gives what it was before.
    pub fn raise(&mut self, last: i64) -> Option<i64>
        ensures before { result ≡ self.old.last }
        ensures raised { self.new ≡ with_raised last self.old }
    {
        let before = self.last;
        let raised = match before {
            None => last,
            Some(raised) => last.max(raised),
        };
        self.last = Some(raised);
        before
    }

    /// A counter below, or the one that it was raised to.
    pub fn last_over(&self, below: i64) -> i64
        ensures { result ≡ over_last self.now.last below }
    {
        match self.last {
            None => below,
            Some(raised) => raised.max(below),
        }
    }

    /// Sets a raised counter back to what it was.
    pub fn set_last(&mut self, before: Option<i64>)
        ensures { self.new ≡ with_last before self.old }
    {
        if self.last.is_some() {
            self.last = before;
        }
    }

    /// Drops all that is entered, unless it is kept. It takes no memory.
    pub fn keep_if(&mut self, kept: bool)
        ensures { self.new ≡ (if kept then self.old else no_layer) }
    {
        if !kept {
            self.entries.clear();
            self.last = None;
        }
    }

    /// Those of the rows that are there now that have one of the keys in the columns.
    fn wanted(&self, alloc: Global, columns: &[u16], keys: &[Row]) -> Result<Items<Row>, Memory>
        ensures { IfOk result (λ rows. rows ≡ filter (has_wanted columns.now keys.now) (present self.now.entries)) }
    {
        let mut rows = Items::new(alloc);
        for now in self.entries.values() {
            push_wanted(&mut rows, columns, keys, now)?;
        }
        Ok(rows)
    }

    /// Those of the rows that are there now that pass all of the tests.
    fn passing(&self, alloc: Global, tests: &[ColumnTest]) -> Result<Items<Row>, Memory>
        ensures { IfOk result (λ rows. rows ≡ filter (passes_all tests.now) (present self.now.entries)) }
    {
        let mut rows = Items::new(alloc);
        for now in self.entries.values() {
            push_passing(&mut rows, tests, now)?;
        }
        Ok(rows)
    }

    /// Those of the rows that are there now that have an id or a later one, backward that or an earlier one.
    fn present_from(
        &self,
        alloc: Global,
        table: &Table,
        from: Option<&Row>,
        backward: bool,
    ) -> Result<Items<Row>, Memory>
        ensures { IfOk result (λ rows. rows ≡ filter (has_id_from table.now (option_copied from.entry) backward) (present self.now.entries)) }
    {
        let mut rows = Items::new(alloc);
        for now in self.entries.values() {
            push_from(&mut rows, table, from, backward, now)?;
        }
        Ok(rows)
    }

    /// Rows below with the entered ones laid over them that have one of the keys in the columns, in the order
    /// of their ids. Where nothing is entered they stay as they are.
    pub fn wanted_over(
        &self,
        alloc: Global,
        table: &Table,
        columns: &[u16],
        keys: &[Row],
        rows: Rows,
    ) -> Result<Rows, Memory>
        ensures { IfOk result (λ seen. LiesOver table.now self.now.entries (has_wanted columns.now keys.now) rows.rows seen.rows) }
    {
        if self.entries.is_empty() {
            return Ok(rows);
        }
        let entered = self.wanted(alloc, columns, keys)?;
        let rows = self.laid_with(alloc, table, rows.rows, entered)?;
        Ok(Rows { rows })
    }

    /// Rows below with the entered ones laid over them that pass all of the tests, in the order of their ids.
    /// Where nothing is entered they stay as they are.
    pub fn passing_over(
        &self,
        alloc: Global,
        table: &Table,
        tests: &[ColumnTest],
        rows: Rows,
    ) -> Result<Rows, Memory>
        ensures { IfOk result (λ seen. LiesOver table.now self.now.entries (passes_all tests.now) rows.rows seen.rows) }
    {
        if self.entries.is_empty() {
            return Ok(rows);
        }
        let entered = self.passing(alloc, tests)?;
        let rows = self.laid_with(alloc, table, rows.rows, entered)?;
        Ok(Rows { rows })
    }

    /// A page of at most `count` rows, of a page below with the entered rows laid over it. Where nothing is
    /// entered it stays as it is.
    pub fn page_over(
        &self,
        alloc: Global,
        table: &Table,
        from: Option<&Row>,
        backward: bool,
        count: usize,
        rows: Rows,
    ) -> Result<Rows, Memory>
        ensures { IfOk result (λ seen. PageLiesOver table.now self.now.entries (option_copied from.entry) backward count rows.rows seen.rows) }
    {
        if self.entries.is_empty() {
            return Ok(rows);
        }
        let entered = self.present_from(alloc, table, from, backward)?;
        let laid = self.laid_with(alloc, table, rows.rows, entered)?;
        let rows = turned_part(alloc, laid, backward, count)?;
        Ok(Rows { rows })
    }

    /// Those of the rows that aren't entered, and the entered ones, in the order of their ids.
    fn laid_with(
        &self,
        alloc: Global,
        table: &Table,
        rows: Items<Row>,
        entered: Items<Row>,
    ) -> Result<Items<Row>, Memory>
        ensures { IfOk result (λ seen. seen ≡ values_of (put_in table.now entered (put_in table.now (untouched table.now self.now.entries rows) []))) }
    {
        let mut laid = BTreeMap::new(alloc);
        self.lay_untouched(alloc, &mut laid, table, rows)?;
        lay(alloc, &mut laid, table, entered)?;
        rows_of(alloc, laid)
    }

    /// Lays those of the rows that aren't entered under their ids.
    fn lay_untouched(
        &self,
        alloc: Global,
        laid: &mut BTreeMap<Row, Row>,
        table: &Table,
        rows: Items<Row>,
    ) -> Result<(), Memory>
        ensures { OnOk result (laid.new.entries ≡ put_in table.now (untouched table.now self.now.entries rows) laid.old.entries) }
    {
        let mut rest = rows;
        'rows: while let Some(row) = rest.pop() {
            let id = id_row(alloc, id_columns(table), &row)?;
            if !self.entries.contains_key(&id) {
                laid.insert(id, row)?;
            }
        }
        Ok(())
    }
}

/// The columns of a table's id.
pub fn id_columns(table: &Table) -> &[u16]
    ensures { result.now ≡ columns_of_id table.now }
{
    match table.keys.as_slice() {
        [] => &[],
        [key, ..] => key.columns.as_slice(),
    }
}

/// Appends a row, if there is one that has one of the keys in the columns.
fn push_wanted(
    rows: &mut Items<Row>,
    columns: &[u16],
    keys: &[Row],
    now: &Option<Row>,
) -> Result<(), Memory>
    ensures { OnOk result (rows.new ≡ rows.old ++ row_if (has_wanted columns.now keys.now) now.now) }
{
    if let Some(row) = now {
        if is_wanted(columns, keys, row) {
            rows.push(row.share()?)?;
        }
    }
    Ok(())
}

/// Appends a row, if there is one that passes all of the tests.
fn push_passing(
    rows: &mut Items<Row>,
    tests: &[ColumnTest],
    now: &Option<Row>,
) -> Result<(), Memory>
    ensures { OnOk result (rows.new ≡ rows.old ++ row_if (passes_all tests.now) now.now) }
{
    if let Some(row) = now {
        if passes(tests, row) {
            rows.push(row.share()?)?;
        }
    }
    Ok(())
}

/// Appends a row, if there is one that has an id or a later one, backward that or an earlier one.
fn push_from(
    rows: &mut Items<Row>,
    table: &Table,
    from: Option<&Row>,
    backward: bool,
    now: &Option<Row>,
) -> Result<(), Memory>
    ensures { OnOk result (rows.new ≡ rows.old ++ row_if (has_id_from table.now (option_copied from.entry) backward) now.now) }
{
    if let Some(row) = now {
        if is_from(table, from, backward, row) {
            rows.push(row.share()?)?;
        }
    }
    Ok(())
}

/// Whether a row has an id or a later one, backward that or an earlier one. Each row has, where none is given.
fn is_from(table: &Table, from: Option<&Row>, backward: bool, row: &Row) -> bool
    ensures { result ≡ has_id_from table.now (option_copied from.entry) backward row.now }
{
    match from {
        None => true,
        Some(id) => {
            let order = compare_at(id_columns(table), row, id.values());
            if backward {
                order.is_le()
            } else {
                order.is_ge()
            }
        }
    }
}

/// How the values of a row in columns come to others, by the first that differ.
fn compare_at(columns: &[u16], row: &Row, values: &[Value]) -> Ordering
    ensures { result ≡ values_cmp (at_columns columns.now row.now) values.now }
{
    match columns {
        [] => match values {
            [] => Ordering::Equal,
            [_, ..] => Ordering::Less,
        },
        [column, later @ ..] => match values {
            [] => Ordering::Greater,
            [value, others @ ..] => {
                compare_in(*column, row, value).then(compare_at(later, row, others))
            }
        },
    }
}

/// How the value of a row in a column comes to another.
fn compare_in(column: u16, row: &Row, value: &Value) -> Ordering
    ensures { result ≡ value_cmp (value_at row.now column) value.now }
{
    match sqlite_items::at(row.values(), column as usize) {
        Some(kept) => kept.cmp(value),
        None => Value::Null.cmp(value),
    }
}

/// Of rows the first ones, at most so many; backward the last ones, the last one first.
fn turned_part(
    alloc: Global,
    rows: Items<Row>,
    backward: bool,
    count: usize,
) -> Result<Items<Row>, Memory>
    ensures { IfOk result (λ part. part ≡ take count (turned backward rows)) }
{
    if backward {
        last_rows(alloc, rows, count)
    } else {
        Ok(first_rows(rows, count))
    }
}

/// The first rows, at most so many.
fn first_rows(rows: Items<Row>, count: usize) -> Items<Row>
    ensures { result ≡ take count rows }
{
    let mut first = rows;
    'rows: while first.len() > count {
        first.pop();
    }
    first
}

/// The last rows, at most so many, the last one first.
fn last_rows(alloc: Global, rows: Items<Row>, count: usize) -> Result<Items<Row>, Memory>
    ensures { IfOk result (λ last. last ≡ take count (reverse rows)) }
{
    let mut last = Items::new(alloc);
    let mut rest = rows;
    'rows: while last.len() < count {
        match rest.pop() {
            None => return Ok(last),
            Some(row) => last.push(row)?,
        }
    }
    Ok(last)
}

/// Lays rows under their ids.
fn lay(
    alloc: Global,
    laid: &mut BTreeMap<Row, Row>,
    table: &Table,
    rows: Items<Row>,
) -> Result<(), Memory>
    ensures { OnOk result (laid.new.entries ≡ put_in table.now rows laid.old.entries) }
{
    let mut rest = rows;
    'rows: while let Some(row) = rest.pop() {
        let id = id_row(alloc, id_columns(table), &row)?;
        laid.insert(id, row)?;
    }
    Ok(())
}

/// The rows of a map, in its order.
fn rows_of(alloc: Global, laid: BTreeMap<Row, Row>) -> Result<Items<Row>, Memory>
    ensures { IfOk result (λ rows. rows ≡ values_of laid.entries) }
{
    let mut rows = Items::new(alloc);
    for row in laid.into_values() {
        rows.push(row)?;
    }
    Ok(rows)
}
