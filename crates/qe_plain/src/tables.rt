//! The tables of a schema in plain lists.
ghost use Rattle.std.specs.Prelude.{◌≡◌, ◌<◌, true, [], IfOk, OnOk, OnErr, length, map};
ghost use Rattle.std.specs.List.{list_all};
ghost use Rattle.std.specs.Option.{option_copied};
ghost use Rattle.qe_view.specs.After.{after, after_all, rows_in, rows_at, rows_passing, page_among};
ghost use Rattle.qe_view.specs.Attached.{shapes_of};
ghost use Rattle.qe_view.specs.Right.{is_right};
ghost use Rattle.qe_plain.specs.Kept.{nothing_kept, tables_of, table_of, changed};

use crate::pairs::{share_pairs, with_pair, without_pair};
use crate::rows::{page, rows_and_pairs, with_row, without_row};
use qe_base::{ColumnTest, Row, Table, TableId, Value};
use qe_text::{Items, Memory};
use qe_view::{Change, Layout, is_wanted, passes, share_rows};
use std::alloc::Global;
use std::marker::Model;

/// One table: the rows of a model in the order of their ids, its counter, and the pairs of a link table in order.
#[derive(Drop)]
pub struct PlainTable {
    pub rows: Items<Row>,
    pub pairs: Items<(Value, Value)>,
    pub last: i64,
}

/// The tables of a schema, by their numbers.
#[derive(Drop)]
pub struct PlainTables {
    alloc: Global,
    tables: Vec<PlainTable>,
}

impl Model for PlainTables {
    ghost use Rattle.std.specs.Prelude.{List};
    ghost use Rattle.qe_plain.specs.declared.tables.PlainTable.{PlainTable};

    ghost Value = { List PlainTable };

    ghost view = { λ p. p.tables.items };
}

/// A table with nothing in it.
fn nothing_kept(alloc: Global) -> PlainTable
    ensures { result ≡ nothing_kept }
{
    PlainTable {
        rows: Items::new(alloc),
        pairs: Items::new(alloc),
        last: 0,
    }
}

/// The same table for one more owner.
fn share_table(alloc: Global, kept: &PlainTable) -> Result<PlainTable, Memory>
    ensures { IfOk result (λ table. table ≡ kept.now) }
{
    let rows = share_rows(alloc, kept.rows.as_slice())?;
    let pairs = share_pairs(alloc, kept.pairs.as_slice())?;
    Ok(PlainTable {
        rows,
        pairs: Items::from_vec(pairs),
        last: kept.last,
    })
}

/// The table of a change.
fn table_of(change: &Change) -> TableId
    ensures { result.0 ≡ table_of change.now }
{
    match change {
        Change::Remove { table, .. } => *table,
        Change::Put { table, .. } => *table,
        Change::Unlink { table, .. } => *table,
        Change::Link { table, .. } => *table,
        Change::Counter { table, .. } => *table,
    }
}

/// Makes a change of a table.
fn change_table(
    alloc: Global,
    shape: &Table,
    kept: &mut PlainTable,
    change: &Change,
) -> Result<(), Memory>
    ensures { OnOk result (kept.new ≡ changed shape.now change.now kept.old) }
{
    match change {
        Change::Remove { id, .. } => {
            kept.rows = without_row(alloc, shape, kept.rows.as_slice(), id)?;
            Ok(())
        }
        Change::Put { row, .. } => {
            kept.rows = with_row(alloc, shape, kept.rows.as_slice(), row)?;
            Ok(())
        }
        Change::Unlink { a, b, .. } => {
            kept.pairs = without_pair(alloc, kept.pairs.as_slice(), a, b)?;
            Ok(())
        }
        Change::Link { a, b, .. } => {
            kept.pairs = with_pair(alloc, kept.pairs.as_slice(), a, b)?;
            Ok(())
        }
        Change::Counter { last, .. } => {
            kept.last = kept.last.max(*last);
            Ok(())
        }
    }
}

impl PlainTables {
    /// No tables.
    pub fn none(alloc: Global) -> PlainTables
        ensures { result ≡ [] }
    {
        PlainTables {
            alloc,
            tables: Vec::new(alloc),
        }
    }

    /// Tables of these shapes with nothing in them.
    pub fn empty(alloc: Global, shapes: &[Table]) -> Result<PlainTables, Memory>
        ensures { IfOk result (λ kept. kept ≡ map (λ _. nothing_kept) shapes.now) }
    {
        let mut tables = Vec::new(alloc);
        for _shape in shapes {
            tables.push(nothing_kept(alloc))?;
        }
        Ok(PlainTables { alloc, tables })
    }

    /// The same tables for one more owner.
    fn share(&self) -> Result<PlainTables, Memory>
        ensures { IfOk result (λ kept. kept ≡ self.now) }
    {
        let mut tables = Vec::new(self.alloc);
        for table in self.tables.as_slice() {
            tables.push(share_table(self.alloc, table)?)?;
        }
        Ok(PlainTables {
            alloc: self.alloc,
            tables,
        })
    }

    /// Makes a change.
    fn change(&mut self, layout: &Layout, change: &Change) -> Result<(), Memory>
        requires count { length self.old ≡ length layout.now.tables }
        requires right { is_right (shapes_of layout.now) change.now ≡ true }
        ensures told { OnOk result (tables_of self.new ≡ after (shapes_of layout.now) change.now (tables_of self.old)) }
        ensures count { length self.new ≡ length self.old }
    {
        let number = table_of(change).0 as usize;
        let shape = &layout.table_list()[number];
        change_table(self.alloc, shape, &mut self.tables[number], change)
    }

    /// Makes changes in their order.
    fn change_all(&mut self, layout: &Layout, changes: &[Change]) -> Result<(), Memory>
        requires count { length self.old ≡ length layout.now.tables }
        requires right { list_all (is_right (shapes_of layout.now)) changes.now ≡ true }
        ensures told { OnOk result (tables_of self.new ≡ after_all (shapes_of layout.now) changes.now (tables_of self.old)) }
        ensures count { length self.new ≡ length self.old }
    {
        for change in changes {
            self.change(layout, change)?;
        }
        Ok(())
    }

    /// Makes all changes or none.
    pub fn apply(&mut self, layout: &Layout, changes: &[Change]) -> Result<(), Memory>
        requires count { length self.old ≡ length layout.now.tables }
        requires right { list_all (is_right (shapes_of layout.now)) changes.now ≡ true }
        ensures ok { OnOk result (tables_of self.new ≡ after_all (shapes_of layout.now) changes.now (tables_of self.old)) }
        ensures err { OnErr result (self.new ≡ self.old) }
        ensures count { length self.new ≡ length self.old }
    {
        let mut later = self.share()?;
        later.change_all(layout, changes)?;
        self.tables = later.tables;
        Ok(())
    }

    /// All rows of a table; the rows of a link table are its pairs.
    fn rows(&self, table: TableId) -> Result<Vec<Row>, Memory>
        requires { table.0 < length self.now }
        ensures { IfOk result (λ rows. rows.items ≡ rows_in (tables_of self.now) table.0) }
    {
        let kept = &self.tables[table.0 as usize];
        rows_and_pairs(self.alloc, kept.rows.as_slice(), kept.pairs.as_slice())
    }

    /// The rows of a table that have one of the keys in the columns.
    pub fn wanted(
        &self,
        table: TableId,
        columns: &[u16],
        keys: &[Row],
    ) -> Result<Items<Row>, Memory>
        requires { table.0 < length self.now }
        ensures { IfOk result (λ rows. rows ≡ rows_at columns.now keys.now table.0 (tables_of self.now)) }
    {
        let mut found = self.rows(table)?;
        found.retain(|row| is_wanted(columns, keys, row));
        Ok(Items::from_vec(found))
    }

    /// The rows of a table that pass the tests.
    pub fn passing(&self, table: TableId, tests: &[ColumnTest]) -> Result<Items<Row>, Memory>
        requires { table.0 < length self.now }
        ensures { IfOk result (λ rows. rows ≡ rows_passing tests.now table.0 (tables_of self.now)) }
    {
        let mut found = self.rows(table)?;
        found.retain(|row| passes(tests, row));
        Ok(Items::from_vec(found))
    }

    /// At most so many rows of a table of this shape, from an id on, or backward up to it.
    pub fn page(
        &self,
        shape: &Table,
        table: TableId,
        from: Option<&Row>,
        backward: bool,
        count: usize,
    ) -> Result<Items<Row>, Memory>
        requires { table.0 < length self.now }
        ensures { IfOk result (λ rows. rows ≡ page_among shape.now (option_copied from.entry) backward count ((tables_of self.now).rows table.0)) }
    {
        let kept = &self.tables[table.0 as usize];
        page(
            self.alloc,
            shape,
            kept.rows.as_slice(),
            from,
            backward,
            count,
        )
    }

    /// The counter of a table.
    pub fn last(&self, table: TableId) -> i64
        requires { table.0 < length self.now }
        ensures { result ≡ (tables_of self.now).last table.0 }
    {
        self.tables[table.0 as usize].last
    }
}
