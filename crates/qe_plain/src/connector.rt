//! The connector over plain lists.
use crate::tables::PlainTables;
use qe_base::{ColumnTest, Row, Rows, TableId};
use qe_mem::{CallKind, Counts, FailAt};
use qe_text::{Items, Memory, Text};
use qe_view::{AttachFault, Change, ConnFault, Connector, Layout};
use std::alloc::Global;
use std::marker::Model;

/// The place that was opened, and the layout that its tables have.
#[derive(Drop)]
struct Attached {
    place: Text,
    layout: Layout,
}

impl Model for Attached {
    ghost use Rattle.qe_view.specs.Attached.{Attached};

    ghost Value = { Attached };

    ghost view = { λ a. record { place = a.place; layout = a.layout } };
}

/// Tables in plain lists. It tells nothing of them, keeps nothing before it is attached, and listed calls fail.
/// A call goes over all of a table's rows, and `apply` over those of all tables.
#[derive(Drop)]
pub struct PlainConnector {
    alloc: Global,
    attached: Option<Attached>,
    tables: PlainTables,
    counts: Counts,
}

impl Model for PlainConnector {
    ghost use Rattle.qe_plain.specs.Plain.{Plain, AreHeld};

    ghost Value = { Plain };

    ghost view = { λ p. record { attached = p.attached; kept = p.tables; counts = p.counts } };

    ghost invariant = { λ p. AreHeld p.attached p.tables };
}

impl PlainConnector {
    ghost use Rattle.std.specs.Prelude.{◌≡◌, None, IfOk};
    ghost use Rattle.std.specs.Option.{option_copied};
    ghost use Rattle.qe_schema.specs.Tables.{no_rows};
    ghost use Rattle.qe_view.specs.Attached.{HasTable};
    ghost use Rattle.qe_view.specs.Calls.{no_calls as none_made};
    ghost use Rattle.qe_mem.specs.Counts.{no_calls, may_fail};
    ghost use Rattle.qe_plain.specs.Plain.{plain_seen, plain_tables, IsPage};

    /// Tables of which none is there before it is attached. The numbers of the calls that are to fail
    /// count from 1 within each kind.
    pub fn new(alloc: Global, fail: &[FailAt]) -> Result<PlainConnector, Memory>
        ensures keeps { IfOk result (λ connector. (plain_seen connector).keeps ≡ None) }
        ensures attached { IfOk result (λ connector. (plain_seen connector).attached ≡ None) }
        ensures told { IfOk result (λ connector. (plain_seen connector).told ≡ None) }
        ensures faults { IfOk result (λ connector. (plain_seen connector).faults ≡ record { count = 0; may_fail = may_fail (no_calls fail.now) }) }
        ensures misfits { IfOk result (λ connector. (plain_seen connector).misfits ≡ 0) }
        ensures calls { IfOk result (λ connector. (plain_seen connector).calls ≡ none_made) }
        ensures counts { IfOk result (λ connector. connector.counts ≡ no_calls fail.now) }
        ensures kept { IfOk result (λ connector. plain_tables connector ≡ no_rows) }
    {
        Ok(PlainConnector {
            alloc,
            attached: None,
            tables: PlainTables::none(alloc),
            counts: Counts::new(Items::from_slice(alloc, fail)?),
        })
    }

    /// A page of a model of the attached layout.
    fn page_of(
        &self,
        table: TableId,
        from: Option<&Row>,
        backward: bool,
        count: usize,
    ) -> Result<Items<Row>, Memory>
        requires { HasTable (plain_seen self.now) table.0 }
        ensures { IfOk result (IsPage self.now (option_copied from.entry) backward count table.0) }
    {
        match &self.attached {
            None => Ok(Items::new(self.alloc)),
            Some(attached) => {
                let shape = &attached.layout.table_list()[table.0 as usize];
                self.tables.page(shape, table, from, backward, count)
            }
        }
    }
}

/// Of told tables the clauses say nothing; those named `kept` say the same of the tables that it keeps.
impl Connector for PlainConnector {
    ghost use Rattle.std.specs.Prelude.{◌≡◌, ◌↔◌, None, true, IfOk, OnOk, OnErr, IsErrOf};
    ghost use Rattle.std.specs.Option.{option_copied};
    ghost use Rattle.qe_schema.specs.Tables.{no_rows};
    ghost use Rattle.qe_view.specs.After.{after_all, rows_at, rows_passing, page_in};
    ghost use Rattle.qe_view.specs.Answers.{GivesRows, RowsFit, GivesLast, OnlyAsked, Applies};
    ghost use Rattle.qe_view.specs.Calls.{with_load, with_scan, with_page, with_last};
    ghost use Rattle.qe_view.specs.Attached.{Attaches, HasTable, CanLoad, CanScan, CanPage, CanApply, OfShapes};
    ghost use Rattle.qe_mem.specs.Counts.{fails_next, after_call};
    ghost use Rattle.qe_mem.specs.declared.counts.CallKind.TheVariants as call;
    ghost use Rattle.qe_plain.specs.Plain.{plain_seen, plain_tables, IsPage};

    ghost seen = { plain_seen };

    fn attach(&mut self, place: &str, layout: &Layout) -> Result<(), AttachFault>
        requires { (plain_seen self.old).attached ≡ None }
        ensures attaches { Attaches place.now layout.now (plain_seen self.old) (plain_seen self.new) result }
        ensures empty { OnOk result (plain_tables self.new ≡ no_rows) }
        ensures same { OnErr result (self.new ≡ record self.old { counts = self.new.counts }) }
        ensures exactly { IsErrOf result AttachFault.Failed ↔ (fails_next call.Attach self.old.counts ≡ true) }
        ensures counted { self.new.counts ≡ after_call call.Attach self.old.counts }
    {
        if self.counts.begin(CallKind::Attach) {
            return Err(AttachFault::Failed);
        }
        let tables = PlainTables::empty(self.alloc, layout.table_list())?;
        let place = Text::from_str(self.alloc, place)?;
        let layout = layout.copy(self.alloc)?;
        self.attached = Some(Attached { place, layout });
        self.tables = tables;
        Ok(())
    }

    fn load(&mut self, table: TableId, columns: &[u16], keys: &[Row]) -> Result<Rows, ConnFault>
        requires { CanLoad (plain_seen self.old) table.0 columns.now keys.now }
        ensures rows { GivesRows None (rows_at columns.now keys.now table.0) result }
        ensures rows_fit { OfShapes (plain_seen self.old) (λ shapes. RowsFit shapes table.0 result) }
        ensures others { OnlyAsked with_load (plain_seen self.old) (plain_seen self.new) result }
        ensures kept { IfOk result (λ found. found.rows ≡ rows_at columns.now keys.now table.0 (plain_tables self.old)) }
        ensures exactly { IsErrOf result ConnFault.Failed ↔ (fails_next call.Load self.old.counts ≡ true) }
        ensures counted { self.new ≡ record self.old { counts = after_call call.Load self.old.counts } }
    {
        if self.counts.begin(CallKind::Load) {
            return Err(ConnFault::Failed);
        }
        let rows = self.tables.wanted(table, columns, keys)?;
        Ok(Rows { rows })
    }

    fn scan(&mut self, table: TableId, tests: &[ColumnTest]) -> Result<Rows, ConnFault>
        requires { CanScan (plain_seen self.old) table.0 tests.now }
        ensures rows { GivesRows None (rows_passing tests.now table.0) result }
        ensures rows_fit { OfShapes (plain_seen self.old) (λ shapes. RowsFit shapes table.0 result) }
        ensures others { OnlyAsked with_scan (plain_seen self.old) (plain_seen self.new) result }
        ensures kept { IfOk result (λ found. found.rows ≡ rows_passing tests.now table.0 (plain_tables self.old)) }
        ensures exactly { IsErrOf result ConnFault.Failed ↔ (fails_next call.Scan self.old.counts ≡ true) }
        ensures counted { self.new ≡ record self.old { counts = after_call call.Scan self.old.counts } }
    {
        if self.counts.begin(CallKind::Scan) {
            return Err(ConnFault::Failed);
        }
        let rows = self.tables.passing(table, tests)?;
        Ok(Rows { rows })
    }

    fn page(
        &mut self,
        table: TableId,
        from: Option<&Row>,
        backward: bool,
        count: usize,
    ) -> Result<Rows, ConnFault>
        requires { CanPage (plain_seen self.old) table.0 (option_copied from) }
        ensures rows { OfShapes (plain_seen self.old) (λ shapes. GivesRows None (page_in shapes (option_copied from.entry) backward count table.0) result) }
        ensures rows_fit { OfShapes (plain_seen self.old) (λ shapes. RowsFit shapes table.0 result) }
        ensures others { OnlyAsked with_page (plain_seen self.old) (plain_seen self.new) result }
        ensures kept { IfOk result (λ found. IsPage self.old (option_copied from.entry) backward count table.0 found.rows) }
        ensures exactly { IsErrOf result ConnFault.Failed ↔ (fails_next call.Page self.old.counts ≡ true) }
        ensures counted { self.new ≡ record self.old { counts = after_call call.Page self.old.counts } }
    {
        if self.counts.begin(CallKind::Page) {
            return Err(ConnFault::Failed);
        }
        let rows = self.page_of(table, from, backward, count)?;
        Ok(Rows { rows })
    }

    fn last(&mut self, table: TableId) -> Result<i64, ConnFault>
        requires { HasTable (plain_seen self.old) table.0 }
        ensures last { GivesLast None table.0 result }
        ensures others { OnlyAsked with_last (plain_seen self.old) (plain_seen self.new) result }
        ensures kept { IfOk result (λ last. last ≡ (plain_tables self.old).last table.0) }
        ensures exactly { IsErrOf result ConnFault.Failed ↔ (fails_next call.Last self.old.counts ≡ true) }
        ensures counted { self.new ≡ record self.old { counts = after_call call.Last self.old.counts } }
    {
        if self.counts.begin(CallKind::Last) {
            return Err(ConnFault::Failed);
        }
        Ok(self.tables.last(table))
    }

    fn apply(&mut self, changes: &[Change]) -> Result<(), ConnFault>
        requires { CanApply (plain_seen self.old) changes.now }
        ensures applies { Applies changes.now (plain_seen self.old) (plain_seen self.new) result }
        ensures kept { OnOk result (OfShapes (plain_seen self.old) (λ shapes. plain_tables self.new ≡ after_all shapes changes.now (plain_tables self.old))) }
        ensures same { OnErr result (plain_tables self.new ≡ plain_tables self.old) }
        ensures exactly { IsErrOf result ConnFault.Failed ↔ (fails_next call.Apply self.old.counts ≡ true) }
        ensures counted { self.new.counts ≡ after_call call.Apply self.old.counts }
    {
        if self.counts.begin(CallKind::Apply) {
            return Err(ConnFault::Failed);
        }
        if let Some(attached) = &self.attached {
            attached.layout.is_of_schema();
            self.tables.apply(&attached.layout, changes)?;
        }
        Ok(())
    }

    fn faults(&self) -> u64 {
        self.counts.faults()
    }
}
