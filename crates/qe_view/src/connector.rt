//! What keeps the tables of a schema: in memory, in a file.
ghost use Rattle.std.specs.Prelude.{◌≡◌, None};
ghost use Rattle.std.specs.Option.{option_copied};
ghost use Rattle.qe_view.specs.After.{rows_at, rows_passing, page_in};
ghost use Rattle.qe_view.specs.Answers.{GivesRows, RowsFit, GivesLast, OnlyAsked, Applies};
ghost use Rattle.qe_view.specs.Calls.{with_load, with_scan, with_page, with_last};
ghost use Rattle.qe_view.specs.Attached.{Connected, Attaches, HasTable, CanLoad, CanScan, CanPage, CanApply, OfShapes};

use crate::{AttachFault, Change, ConnFault, Layout};
use qe_base::{ColumnTest, Row, Rows, TableId};

/// What keeps tables. It is attached once, with a layout, and then answers about its tables and changes them.
/// One that tells says in contracts which tables it keeps; the engine knows nothing else of it. It counts its
/// faults, its misfits and the calls of each kind, up to what 64 bits hold.
pub trait Connector: Drop {
    /// All that is seen of it.
    ghost seen: { Self → Connected };

    /// Opens what is kept at a place, for tables of a layout. It comes once, before all else.
    /// Refused with `Layout` where the text of another layout is kept there.
    fn attach(&mut self, place: &str, layout: &Layout) -> Result<(), AttachFault>
        requires { (seen self.old).attached ≡ None }
        ensures { Attaches place.now layout.now (seen self.old) (seen self.new) result };

    /// The rows of a table that have one of the keys in the columns, in the order of their ids. The
    /// rows of a link table are its pairs.
    fn load(&mut self, table: TableId, columns: &[u16], keys: &[Row]) -> Result<Rows, ConnFault>
        requires { CanLoad (seen self.old) table.0 columns.now keys.now }
        ensures rows { GivesRows (seen self.old).told (rows_at columns.now keys.now table.0) result }
        ensures rows_fit { OfShapes (seen self.old) (λ shapes. RowsFit shapes table.0 result) }
        ensures others { OnlyAsked with_load (seen self.old) (seen self.new) result };

    /// The rows of a table that pass all of the tests, in the order of their ids: all rows for no tests.
    fn scan(&mut self, table: TableId, tests: &[ColumnTest]) -> Result<Rows, ConnFault>
        requires { CanScan (seen self.old) table.0 tests.now }
        ensures rows { GivesRows (seen self.old).told (rows_passing tests.now table.0) result }
        ensures rows_fit { OfShapes (seen self.old) (λ shapes. RowsFit shapes table.0 result) }
        ensures others { OnlyAsked with_scan (seen self.old) (seen self.new) result };

    /// At most `count` rows of a model in the order of their ids: those from an id on, with it, or from the
    /// first one; backward those up to an id, with it, or up to the last one, that one first.
    fn page(
        &mut self,
        table: TableId,
        from: Option<&Row>,
        backward: bool,
        count: usize,
    ) -> Result<Rows, ConnFault>
        requires { CanPage (seen self.old) table.0 (option_copied from) }
        ensures rows { OfShapes (seen self.old) (λ shapes. GivesRows (seen self.old).told (page_in shapes (option_copied from.entry) backward count table.0) result) }
        ensures rows_fit { OfShapes (seen self.old) (λ shapes. RowsFit shapes table.0 result) }
        ensures others { OnlyAsked with_page (seen self.old) (seen self.new) result };

    /// The counter of a table, 0 at first.
    fn last(&mut self, table: TableId) -> Result<i64, ConnFault>
        requires { HasTable (seen self.old) table.0 }
        ensures last { GivesLast (seen self.old).told table.0 result }
        ensures others { OnlyAsked with_last (seen self.old) (seen self.new) result };

    /// Makes all of the changes or none. It never answers `Misfit`.
    fn apply(&mut self, changes: &[Change]) -> Result<(), ConnFault>
        requires { CanApply (seen self.old) changes.now }
        ensures { Applies changes.now (seen self.old) (seen self.new) result };

    /// How often a call has failed.
    fn faults(&self) -> u64
        ensures { result ≡ (seen self.now).faults.count };
}

impl Connector for Box<dyn Connector + Send> {
    ghost seen = { λ b. (Connector-box b).seen b.value };

    fn attach(&mut self, place: &str, layout: &Layout) -> Result<(), AttachFault> {
        (**self).attach(place, layout)
    }

    fn load(&mut self, table: TableId, columns: &[u16], keys: &[Row]) -> Result<Rows, ConnFault> {
        (**self).load(table, columns, keys)
    }

    fn scan(&mut self, table: TableId, tests: &[ColumnTest]) -> Result<Rows, ConnFault> {
        (**self).scan(table, tests)
    }

    fn page(
        &mut self,
        table: TableId,
        from: Option<&Row>,
        backward: bool,
        count: usize,
    ) -> Result<Rows, ConnFault> {
        (**self).page(table, from, backward, count)
    }

    fn last(&mut self, table: TableId) -> Result<i64, ConnFault> {
        (**self).last(table)
    }

    fn apply(&mut self, changes: &[Change]) -> Result<(), ConnFault> {
        (**self).apply(changes)
    }

    fn faults(&self) -> u64 {
        (**self).faults()
    }
}
