//! One table: its rows or its pairs, in the order of their ids and in further orders, and its counter.
ghost use Rattle.std.specs.Prelude.{◌≡◌, IfOk, OnOk, OnErr, filter};
ghost use Rattle.qe_view.specs.After.{is_wanted};
ghost use Rattle.qe_mem.specs.Kept.{IsExact};
ghost use Rattle.qe_mem.specs.Plans.{plan_for, entered_table, left_table, settled_table, CanEnterTable, CanSettleTable};

use crate::listing::Listing;
use crate::orders::Orders;
use crate::pending::Pending;
use crate::turns::Turn;
use qe_base::Row;
use qe_text::{Items, Memory};

/// The rows of a model and its counter, or the pairs of a link table as rows of two values.
#[derive(Drop)]
pub struct MemTable {
    pub link: bool,
    pub rows: Listing,
    pub orders: Orders,
    pub last: i64,
}

/// The turns that the changes of a table are, by its ids and in its further orders.
#[derive(Drop)]
pub struct Plan {
    pub rows: Items<Turn>,
    pub orders: Items<Items<Turn>>,
}

impl MemTable {
    /// The turns by which that comes to stand which is to stand.
    pub fn plan(&self, pending: Pending) -> Result<Plan, Memory>
        ensures { IfOk result (λ plan. plan ≡ plan_for pending self.now) }
    {
        let alloc = pending.alloc();
        let swaps = pending.swaps(&self.rows)?;
        let rows = self.rows.turns(alloc, swaps.as_slice())?;
        let orders = self.orders.turns(swaps.as_slice())?;
        Ok(Plan { rows, orders })
    }

    /// The rows that have one of the keys in the columns, in the order of their ids. Where rows are kept by
    /// these columns this takes a range for each key, and else a look at each row.
    pub fn wanted(&self, columns: &[u16], keys: &[Row]) -> Result<Items<Row>, Memory>
        requires { IsExact self.now }
        ensures { IfOk result (λ rows. rows ≡ filter (is_wanted columns.now keys.now) self.now.rows.rows) }
    {
        if self.rows.goes_by(columns) {
            return self.rows.find_all(&self.rows, keys);
        }
        match self.orders.by(columns) {
            Some(order) => order.find_all(&self.rows, keys),
            None => self.rows.wanted(columns, keys),
        }
    }

    /// Enters in each order what comes to places of its own, or nothing in any.
    pub fn enter(&mut self, plan: &Plan) -> Result<(), Memory>
        requires { CanEnterTable plan.now self.old }
        ensures ok { OnOk result (self.new ≡ entered_table plan.now self.old) }
        ensures err { OnErr result (self.new ≡ self.old) }
    {
        self.rows.enter_all(plan.rows.as_slice())?;
        if let Err(memory) = self.orders.enter(plan.orders.as_slice()) {
            self.rows.leave_all(plan.rows.as_slice());
            return Err(memory);
        }
        Ok(())
    }

    /// Takes out of each order what was entered.
    pub fn leave(&mut self, plan: &Plan)
        ensures { self.new ≡ left_table plan.now self.old }
    {
        self.rows.leave_all(plan.rows.as_slice());
        self.orders.leave(plan.orders.as_slice());
    }

    /// Takes out of each order what goes, and puts what takes its place.
    pub fn settle(&mut self, plan: Plan)
        requires { CanSettleTable plan self.old }
        ensures { self.new ≡ settled_table plan self.old }
    {
        let Plan { rows, orders } = plan;
        self.rows.settle_all(rows);
        self.orders.settle(orders);
    }
}
