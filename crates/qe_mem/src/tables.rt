//! The tables of a layout.
ghost use Rattle.std.specs.Prelude.{◌≡◌, [], IfOk, OnOk, OnErr, Option, map, slice_get};
ghost use Rattle.std.specs.Option.{option_copied};
ghost use Rattle.qe_view.specs.After.{pair_row as row_of_pair, rows_at, rows_passing};
ghost use Rattle.qe_mem.specs.Each.{each, AllOfBoth};
ghost use Rattle.qe_mem.specs.Kept.{empty_tables, tables_of, columns_of, orders_of, AreExact, ArePairs, MakesRight, IsPageOf};
ghost use Rattle.qe_mem.specs.Plans.{step_of, gone_step, come_step, noted, noted_all, plans_for, raised, raised_all};
ghost use Rattle.qe_mem.specs.Plans.{entered_table, left_table, settled_table, CanEnterTable, CanSettleTable};

use crate::empty::empty_table;
use crate::pending::{Pending, Step};
use crate::table::{MemTable, Plan};
use qe_base::{ColumnTest, Row, TableId, Value};
use qe_text::{Items, Memory};
use qe_view::{Change, Layout};
use std::alloc::Global;
use std::marker::Model;

/// The tables of a layout, by their numbers. Contracts see them as a list.
#[derive(Drop)]
pub struct MemTables {
    alloc: Global,
    tables: Vec<MemTable>,
}

impl Model for MemTables {
    ghost use Rattle.std.specs.Prelude.{List};
    ghost use Rattle.qe_mem.specs.declared.table.MemTable.{MemTable};

    ghost Value = { List MemTable };

    ghost view = { λ m. m.tables.items };
}

/// A pair as a row, with no room to spare.
fn pair_row(alloc: Global, a: &Value, b: &Value) -> Result<Row, Memory>
    ensures { IfOk result (λ row. row ≡ row_of_pair (a.now, b.now)) }
{
    let mut values = Vec::with_capacity(alloc, 2)?;
    values.push(a.share()?)?;
    values.push(b.share()?)?;
    Row::new(alloc, Items::from_vec(values))
}

impl MemTables {
    /// No tables.
    pub fn none(alloc: Global) -> MemTables
        ensures { result ≡ [] }
    {
        MemTables {
            alloc,
            tables: Vec::new(alloc),
        }
    }

    /// The tables of a layout, with nothing in them.
    pub fn empty(alloc: Global, layout: &Layout) -> Result<MemTables, Memory>
        ensures { IfOk result (λ kept. kept ≡ empty_tables layout.now) }
    {
        let mut tables = Vec::new(alloc);
        let _count = layout.tables();
        for (number, table) in layout.table_list().iter().enumerate() {
            tables.push(empty_table(alloc, layout, TableId(number as u16), table)?)?;
        }
        Ok(MemTables { alloc, tables })
    }

    /// The table of a number, or None where there is no such number.
    fn at(&self, table: TableId) -> Option<&MemTable>
        ensures { option_copied result ≡ slice_get self.now table.0 }
    {
        self.tables.get(table.0 as usize)
    }

    /// The step by which the row of an id goes.
    fn gone(&self, table: TableId, id: &Row) -> Result<Option<Step>, Memory>
        ensures { IfOk result (λ step. step ≡ gone_step table id.now (slice_get self.now table.0)) }
    {
        match self.at(table) {
            None => Ok(None),
            Some(kept) => Ok(Some(Step {
                table,
                place: kept.rows.place(id)?,
                row: None,
            })),
        }
    }

    /// The step by which a row comes.
    fn come(&self, table: TableId, row: &Row) -> Result<Option<Step>, Memory>
        ensures { IfOk result (λ step. step ≡ come_step table row.now (slice_get self.now table.0)) }
    {
        match self.at(table) {
            None => Ok(None),
            Some(kept) => Ok(Some(Step {
                table,
                place: kept.rows.keyed(row)?,
                row: Some(row.share()?),
            })),
        }
    }

    /// The step that a change comes to, if it is one of rows or of pairs.
    fn step(&self, change: &Change) -> Result<Option<Step>, Memory>
        ensures { IfOk result (λ step. step ≡ step_of self.now change.now) }
    {
        match change {
            Change::Remove { table, id } => self.gone(*table, id),
            Change::Put { table, row } => self.come(*table, row),
            Change::Unlink { table, a, b } => {
                let pair = pair_row(self.alloc, a, b)?;
                self.gone(*table, &pair)
            }
            Change::Link { table, a, b } => {
                let pair = pair_row(self.alloc, a, b)?;
                self.come(*table, &pair)
            }
            Change::Counter { .. } => Ok(None),
        }
    }

    /// What is to stand in each table.
    fn pendings(&self, changes: &[Change]) -> Result<Vec<Pending>, Memory>
        ensures { IfOk result (λ all. all.items ≡ noted_all self.now changes.now (map (λ table. []) self.now)) }
    {
        let mut pendings = Vec::new(self.alloc);
        for _table in &self.tables {
            pendings.push(Pending::new(self.alloc))?;
        }
        for change in changes {
            note(&mut pendings, self.step(change)?)?;
        }
        Ok(pendings)
    }

    /// The plans by which that comes to stand in each table.
    fn plans(&self, changes: &[Change]) -> Result<Items<Plan>, Memory>
        ensures { IfOk result (λ plans. plans ≡ plans_for (noted_all self.now changes.now (map (λ table. []) self.now)) self.now) }
    {
        let pendings = self.pendings(changes)?;
        let mut plans = Items::new(self.alloc);
        for pending in pendings {
            if let Some(table) = self.tables.get(plans.len()) {
                plans.push(table.plan(pending)?)?;
            }
        }
        Ok(plans)
    }

    /// Enters in all orders what comes to places of its own, or nothing in any.
    fn enter(&mut self, plans: &[Plan]) -> Result<(), Memory>
        requires { AllOfBoth CanEnterTable plans.now self.old }
        ensures ok { OnOk result (self.new ≡ each entered_table plans.now self.old) }
        ensures err { OnErr result (self.new ≡ self.old) }
    {
        let mut done = 0;
        'tables: while done < plans.len() {
            if let Err(memory) = self.tables[done].enter(&plans[done]) {
                self.leave(&plans[..done]);
                return Err(memory);
            }
            done += 1;
        }
        Ok(())
    }

    /// Takes out of all orders what was entered.
    fn leave(&mut self, plans: &[Plan])
        ensures { self.new ≡ each left_table plans.now self.old }
    {
        let mut left = plans.len();
        'tables: while left > 0 {
            left -= 1;
            if left < self.tables.len() {
                self.tables[left].leave(&plans[left]);
            }
        }
    }

    /// Takes out of all orders what goes, and puts what takes its place.
    fn settle(&mut self, plans: Items<Plan>)
        requires { AllOfBoth CanSettleTable plans self.old }
        ensures { self.new ≡ each settled_table plans self.old }
    {
        let mut plans = plans;
        'tables: while let Some(plan) = plans.pop() {
            let at = plans.len();
            self.tables[at].settle(plan);
        }
    }

    /// Raises a counter, where the change is one of a counter.
    fn raise(&mut self, change: &Change)
        ensures { self.new ≡ raised change.now self.old }
    {
        if let Change::Counter { table, last } = change {
            let at = table.0 as usize;
            if at < self.tables.len() {
                let kept = &mut self.tables[at];
                kept.last = kept.last.max(*last);
            }
        }
    }

    /// Makes all changes or none. What is kept is the rows alone and their entries in each order, also
    /// after a refusal half way: then all is as it was.
    pub fn apply(&mut self, changes: &[Change]) -> Result<(), Memory>
        requires { AreExact self.old }
        ensures ok { OnOk result (MakesRight changes.now self.old self.new) }
        ensures err { OnErr result (self.new ≡ self.old) }
        ensures exact { AreExact self.new }
        ensures columns { map columns_of self.new ≡ map columns_of self.old }
        ensures orders { map orders_of self.new ≡ map orders_of self.old }
    {
        let plans = self.plans(changes)?;
        self.enter(plans.as_slice())?;
        self.settle(plans);
        for change in changes {
            self.raise(change);
        }
        Ok(())
    }

    /// The rows of a table that have one of the keys in the columns, where the rows of a link table are its
    /// pairs.
    pub fn wanted(
        &self,
        table: TableId,
        columns: &[u16],
        keys: &[Row],
    ) -> Result<Items<Row>, Memory>
        requires exact { AreExact self.now }
        requires pairs { ArePairs self.now }
        ensures { IfOk result (λ rows. rows ≡ rows_at columns.now keys.now table.0 (tables_of self.now)) }
    {
        match self.at(table) {
            Some(kept) => kept.wanted(columns, keys),
            None => Ok(Items::new(self.alloc)),
        }
    }

    /// The rows of a table that pass the tests.
    pub fn passing(&self, table: TableId, tests: &[ColumnTest]) -> Result<Items<Row>, Memory>
        requires { ArePairs self.now }
        ensures { IfOk result (λ rows. rows ≡ rows_passing tests.now table.0 (tables_of self.now)) }
    {
        match self.at(table) {
            Some(kept) => kept.rows.passing(tests),
            None => Ok(Items::new(self.alloc)),
        }
    }

    /// At most so many rows of a model from an id on, or up to it, the last one first.
    pub fn page(
        &self,
        table: TableId,
        from: Option<&Row>,
        backward: bool,
        count: usize,
    ) -> Result<Items<Row>, Memory>
        ensures { IfOk result (IsPageOf self.now table.0 (option_copied from.entry) backward count) }
    {
        match self.at(table) {
            Some(kept) => kept.rows.page(from, backward, count),
            None => Ok(Items::new(self.alloc)),
        }
    }

    /// The counter of a table.
    pub fn last(&self, table: TableId) -> i64
        ensures { result ≡ (tables_of self.now).last table.0 }
    {
        match self.at(table) {
            Some(kept) => kept.last,
            None => 0,
        }
    }
}

/// Notes what is to stand at an id.
fn note(pendings: &mut Vec<Pending>, step: Option<Step>) -> Result<(), Memory>
    ensures { OnOk result (pendings.new.items ≡ noted step pendings.old.items) }
{
    if let Some(step) = step {
        let at = step.table.0 as usize;
        if at < pendings.len() {
            pendings[at].set(step.place, step.row)?;
        }
    }
    Ok(())
}
