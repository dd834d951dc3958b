//! The connector in memory.
use crate::counts::{CallKind, Counts, FailAt};
use crate::tables::MemTables;
use qe_base::{ColumnTest, Row, Rows, TableId};
use qe_text::{Items, Memory, Text};
use qe_view::{AttachFault, Change, ConnFault, Connector, Layout};
use std::alloc::Global;
use std::marker::Model;

/// The place that was opened, and the layout that its tables have.
#[derive(Drop)]
struct Attached {
    place: Text,
    layout: Layout,
}

impl Model for Attached {
    ghost use Rattle.qe_view.specs.Attached.{Attached};

    ghost Value = { Attached };

    ghost view = { λ a. record { place = a.place; layout = a.layout } };
}

/// Tables in memory. It tells them, keeps nothing before it is attached, and listed calls fail.
#[derive(Drop)]
pub struct MemConnector {
    alloc: Global,
    attached: Option<Attached>,
    tables: MemTables,
    counts: Counts,
}

impl Model for MemConnector {
    ghost use Rattle.qe_mem.specs.Mem.{Mem, AreHeld};

    ghost Value = { Mem };

    ghost view = { λ m. record { attached = m.attached; kept = m.tables; counts = m.counts } };

    ghost invariant = { λ m. AreHeld m.attached m.tables };
}

impl MemConnector {
    ghost use Rattle.std.specs.Prelude.{◌≡◌, Some, None, IfOk};
    ghost use Rattle.qe_schema.specs.Tables.{no_rows};
    ghost use Rattle.qe_view.specs.Calls.{no_calls as none_made};
    ghost use Rattle.qe_mem.specs.Counts.{no_calls, may_fail};
    ghost use Rattle.qe_mem.specs.Mem.{mem_seen, mem_counts};

    /// Tables of which none is there before it is attached. The numbers of the calls that are to fail
    /// count from 1 within each kind.
    pub fn new(alloc: Global, fail: &[FailAt]) -> Result<MemConnector, Memory>
        ensures keeps { IfOk result (λ connector. (mem_seen connector).keeps ≡ Some None) }
        ensures attached { IfOk result (λ connector. (mem_seen connector).attached ≡ None) }
        ensures told { IfOk result (λ connector. (mem_seen connector).told ≡ Some no_rows) }
        ensures faults { IfOk result (λ connector. (mem_seen connector).faults ≡ record { count = 0; may_fail = may_fail (no_calls fail.now) }) }
        ensures misfits { IfOk result (λ connector. (mem_seen connector).misfits ≡ 0) }
        ensures calls { IfOk result (λ connector. (mem_seen connector).calls ≡ none_made) }
        ensures counts { IfOk result (λ connector. mem_counts connector ≡ no_calls fail.now) }
    {
        Ok(MemConnector {
            alloc,
            attached: None,
            tables: MemTables::none(alloc),
            counts: Counts::new(Items::from_slice(alloc, fail)?),
        })
    }
}

impl Connector for MemConnector {
    ghost use Rattle.std.specs.Prelude.{◌≡◌, ◌↔◌, None, true, OnOk, OnErr, IsErrOf};
    ghost use Rattle.std.specs.Option.{option_copied};
    ghost use Rattle.qe_view.specs.After.{rows_at, rows_passing};
    ghost use Rattle.qe_view.specs.Answers.{GivesRows, RowsFit, GivesLast, OnlyAsked, Applies};
    ghost use Rattle.qe_view.specs.Calls.{with_load, with_scan, with_page, with_last};
    ghost use Rattle.qe_view.specs.Attached.{Attaches, HasTable, CanLoad, CanScan, CanPage, CanApply, OfShapes};
    ghost use Rattle.qe_mem.specs.Counts.{fails_next, after_call};
    ghost use Rattle.qe_mem.specs.declared.counts.CallKind.TheVariants as call;
    ghost use Rattle.qe_mem.specs.Kept.{AreExact, HasOrdersFor};
    ghost use Rattle.qe_mem.specs.Mem.{mem_seen, mem_counts, mem_kept, GivesPage};

    ghost seen = { mem_seen };

    fn attach(&mut self, place: &str, layout: &Layout) -> Result<(), AttachFault>
        requires { (mem_seen self.old).attached ≡ None }
        ensures attaches { Attaches place.now layout.now (mem_seen self.old) (mem_seen self.new) result }
        ensures same { OnErr result (mem_seen self.new ≡ record (mem_seen self.old) { faults = (mem_seen self.new).faults }) }
        ensures orders { OnOk result (HasOrdersFor layout.now (mem_kept self.new)) }
        ensures exact { AreExact (mem_kept self.new) }
        ensures exactly { IsErrOf result AttachFault.Failed ↔ (fails_next call.Attach (mem_counts self.old) ≡ true) }
        ensures counted { mem_counts self.new ≡ after_call call.Attach (mem_counts self.old) }
    {
        if self.counts.begin(CallKind::Attach) {
            return Err(AttachFault::Failed);
        }
        let tables = MemTables::empty(self.alloc, layout)?;
        let place = Text::from_str(self.alloc, place)?;
        let layout = layout.copy(self.alloc)?;
        self.attached = Some(Attached { place, layout });
        self.tables = tables;
        Ok(())
    }

    fn load(&mut self, table: TableId, columns: &[u16], keys: &[Row]) -> Result<Rows, ConnFault>
        requires { CanLoad (mem_seen self.old) table.0 columns.now keys.now }
        ensures rows { GivesRows (mem_seen self.old).told (rows_at columns.now keys.now table.0) result }
        ensures rows_fit { OfShapes (mem_seen self.old) (λ shapes. RowsFit shapes table.0 result) }
        ensures others { OnlyAsked with_load (mem_seen self.old) (mem_seen self.new) result }
        ensures exactly { IsErrOf result ConnFault.Failed ↔ (fails_next call.Load (mem_counts self.old) ≡ true) }
        ensures counted { mem_counts self.new ≡ after_call call.Load (mem_counts self.old) }
    {
        if self.counts.begin(CallKind::Load) {
            return Err(ConnFault::Failed);
        }
        let rows = self.tables.wanted(table, columns, keys)?;
        Ok(Rows { rows })
    }

    fn scan(&mut self, table: TableId, tests: &[ColumnTest]) -> Result<Rows, ConnFault>
        requires { CanScan (mem_seen self.old) table.0 tests.now }
        ensures rows { GivesRows (mem_seen self.old).told (rows_passing tests.now table.0) result }
        ensures rows_fit { OfShapes (mem_seen self.old) (λ shapes. RowsFit shapes table.0 result) }
        ensures others { OnlyAsked with_scan (mem_seen self.old) (mem_seen self.new) result }
        ensures exactly { IsErrOf result ConnFault.Failed ↔ (fails_next call.Scan (mem_counts self.old) ≡ true) }
        ensures counted { mem_counts self.new ≡ after_call call.Scan (mem_counts self.old) }
    {
        if self.counts.begin(CallKind::Scan) {
            return Err(ConnFault::Failed);
        }
        let rows = self.tables.passing(table, tests)?;
        Ok(Rows { rows })
    }

    fn page(
        &mut self,
        table: TableId,
        from: Option<&Row>,
        backward: bool,
        count: usize,
    ) -> Result<Rows, ConnFault>
        requires { CanPage (mem_seen self.old) table.0 (option_copied from) }
        ensures rows { GivesPage (mem_seen self.old) (option_copied from.entry) backward count table.0 result }
        ensures rows_fit { OfShapes (mem_seen self.old) (λ shapes. RowsFit shapes table.0 result) }
        ensures others { OnlyAsked with_page (mem_seen self.old) (mem_seen self.new) result }
        ensures exactly { IsErrOf result ConnFault.Failed ↔ (fails_next call.Page (mem_counts self.old) ≡ true) }
        ensures counted { mem_counts self.new ≡ after_call call.Page (mem_counts self.old) }
    {
        if self.counts.begin(CallKind::Page) {
            return Err(ConnFault::Failed);
        }
        let rows = self.tables.page(table, from, backward, count)?;
        Ok(Rows { rows })
    }

    fn last(&mut self, table: TableId) -> Result<i64, ConnFault>
        requires { HasTable (mem_seen self.old) table.0 }
        ensures last { GivesLast (mem_seen self.old).told table.0 result }
        ensures others { OnlyAsked with_last (mem_seen self.old) (mem_seen self.new) result }
        ensures exactly { IsErrOf result ConnFault.Failed ↔ (fails_next call.Last (mem_counts self.old) ≡ true) }
        ensures counted { mem_counts self.new ≡ after_call call.Last (mem_counts self.old) }
    {
        if self.counts.begin(CallKind::Last) {
            return Err(ConnFault::Failed);
        }
        Ok(self.tables.last(table))
    }

    fn apply(&mut self, changes: &[Change]) -> Result<(), ConnFault>
        requires { CanApply (mem_seen self.old) changes.now }
        ensures applies { Applies changes.now (mem_seen self.old) (mem_seen self.new) result }
        ensures same { OnErr result (mem_kept self.new ≡ mem_kept self.old) }
        ensures exact { AreExact (mem_kept self.new) }
        ensures exactly { IsErrOf result ConnFault.Failed ↔ (fails_next call.Apply (mem_counts self.old) ≡ true) }
        ensures counted { mem_counts self.new ≡ after_call call.Apply (mem_counts self.old) }
    {
        if self.counts.begin(CallKind::Apply) {
            return Err(ConnFault::Failed);
        }
        self.tables.apply(changes)?;
        Ok(())
    }

    fn faults(&self) -> u64 {
        self.counts.faults()
    }
}
