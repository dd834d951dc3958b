//! The tables that an operation works on.
ghost use Rattle.std.specs.Prelude.{◌≡◌, ◌≤◌, true, length, OnOk, OnErr, IfSome};
ghost use Rattle.std.specs.Option.{option_copied};
ghost use Rattle.qe_view.specs.After.{after, rows_at, rows_passing, page_in};
ghost use Rattle.qe_view.specs.Answers.{GivesRows, RowsFit, GivesLast};
ghost use Rattle.qe_view.specs.Calls.{with_load, with_scan, with_page, with_last};
ghost use Rattle.qe_view.specs.Right.{has_table, can_load, can_scan, can_page, is_right};
ghost use Rattle.qe_view.specs.declared.changes.Change.TheVariants as change;
ghost use Rattle.qe_schema.specs.Fits.{FitsSchema};
ghost use Rattle.qe_view.specs.Versions.{Viewed, OnlyViewed, Changes, GoesBack, LeadsToFit, changed};

use crate::ConnFault;
use qe_base::{ColumnTest, Row, Rows, TableId, Value};
use qe_text::Memory;

/// How many changes of a view were made that can be taken back.
#[derive(Clone, Copy, Debug, PartialEq, Eq)]
pub struct Mark(pub u64);

/// The tables of a schema that an operation reads and changes, and which can be taken back to a mark. One
/// that tells says in contracts what they are, now and before each change that can be taken back.
pub trait View: Drop {
    /// All that is seen of it.
    ghost seen: { Self → Viewed };

    /// It is in order, as each call wants it and leaves it.
    ghost stands: { Self → Type 0 };

    /// The told tables of one that is in order fit its schema.
    ghost fits: { (v : Self) → stands v → IfSome (seen v).now (FitsSchema (seen v).schema) };

    /// The rows of a table that have one of the keys in the columns, in the order of their ids. The
    /// rows of a link table are its pairs. It makes at most one call below, a load.
    fn load(&mut self, table: TableId, columns: &[u16], keys: &[Row]) -> Result<Rows, ConnFault>
        requires stands { stands self.old }
        requires can { can_load (seen self.old).schema table.0 columns.now keys.now ≡ true }
        ensures rows { GivesRows (seen self.old).now (rows_at columns.now keys.now table.0) result }
        ensures rows_fit { RowsFit (seen self.old).schema table.0 result }
        ensures others { OnlyViewed with_load (seen self.old) (seen self.new) result }
        ensures stands { stands self.new };

    /// The rows of a table that pass all of the tests, in the order of their ids: all rows for no tests. It
    /// makes at most one call below, a scan.
    fn scan(&mut self, table: TableId, tests: &[ColumnTest]) -> Result<Rows, ConnFault>
        requires stands { stands self.old }
        requires can { can_scan (seen self.old).schema table.0 tests.now ≡ true }
        ensures rows { GivesRows (seen self.old).now (rows_passing tests.now table.0) result }
        ensures rows_fit { RowsFit (seen self.old).schema table.0 result }
        ensures others { OnlyViewed with_scan (seen self.old) (seen self.new) result }
        ensures stands { stands self.new };

    /// At most `count` rows of a model in the order of their ids: those from an id on, with it, or from the
    /// first one; backward those up to an id, with it, or up to the last one, that one first. It makes at
    /// most one call below, a page.
    fn page(
        &mut self,
        table: TableId,
        from: Option<&Row>,
        backward: bool,
        count: usize,
    ) -> Result<Rows, ConnFault>
        requires stands { stands self.old }
        requires can { can_page (seen self.old).schema table.0 (option_copied from) ≡ true }
        ensures rows { GivesRows (seen self.old).now (page_in (seen self.old).schema (option_copied from.entry) backward count table.0) result }
        ensures rows_fit { RowsFit (seen self.old).schema table.0 result }
        ensures others { OnlyViewed with_page (seen self.old) (seen self.new) result }
        ensures stands { stands self.new };

    /// The counter of a table. It makes at most one call below, of the same kind.
    fn last(&mut self, table: TableId) -> Result<i64, ConnFault>
        requires stands { stands self.old }
        requires can { has_table (seen self.old).schema table.0 ≡ true }
        ensures last { GivesLast (seen self.old).now table.0 result }
        ensures others { OnlyViewed with_last (seen self.old) (seen self.new) result }
        ensures stands { stands self.new };

    /// Puts a row, in place of one of the same id. The counter stays.
    fn put(&mut self, table: TableId, row: Row) -> Result<(), ConnFault>
        requires stands { stands self.old }
        requires right { is_right (seen self.old).schema (change.Put table row) ≡ true }
        requires fits { LeadsToFit (seen self.old) (after (seen self.old).schema (change.Put table row)) }
        ensures changes { Changes (after (seen self.old).schema (change.Put table row)) (seen self.old) (seen self.new) result }
        ensures stands { stands self.new };

    /// Removes the row of an id, if it is there.
    fn remove(&mut self, table: TableId, id: &Row) -> Result<(), ConnFault>
        requires stands { stands self.old }
        requires right { is_right (seen self.old).schema (change.Remove table id.now) ≡ true }
        requires fits { LeadsToFit (seen self.old) (after (seen self.old).schema (change.Remove table id.now)) }
        ensures changes { Changes (after (seen self.old).schema (change.Remove table id.now)) (seen self.old) (seen self.new) result }
        ensures stands { stands self.new };

    /// Puts a pair into a link table, unless it is there.
    fn link(&mut self, table: TableId, a: Value, b: Value) -> Result<(), ConnFault>
        requires stands { stands self.old }
        requires right { is_right (seen self.old).schema (change.Link table a b) ≡ true }
        requires fits { LeadsToFit (seen self.old) (after (seen self.old).schema (change.Link table a b)) }
        ensures changes { Changes (after (seen self.old).schema (change.Link table a b)) (seen self.old) (seen self.new) result }
        ensures stands { stands self.new };

    /// Takes a pair out of a link table, if it is there.
    fn unlink(&mut self, table: TableId, a: &Value, b: &Value) -> Result<(), ConnFault>
        requires stands { stands self.old }
        requires right { is_right (seen self.old).schema (change.Unlink table a.now b.now) ≡ true }
        requires fits { LeadsToFit (seen self.old) (after (seen self.old).schema (change.Unlink table a.now b.now)) }
        ensures changes { Changes (after (seen self.old).schema (change.Unlink table a.now b.now)) (seen self.old) (seen self.new) result }
        ensures stands { stands self.new };

    /// Raises the counter of a table to a number that is greater.
    fn raise(&mut self, table: TableId, last: i64) -> Result<(), Memory>
        requires stands { stands self.old }
        requires right { is_right (seen self.old).schema (change.Counter table last) ≡ true }
        requires fits { LeadsToFit (seen self.old) (after (seen self.old).schema (change.Counter table last)) }
        ensures ok { OnOk result (seen self.new ≡ changed (after (seen self.old).schema (change.Counter table last)) (seen self.old)) }
        ensures err { OnErr result (seen self.new ≡ seen self.old) }
        ensures stands { stands self.new };

    /// How many changes there are that can be taken back.
    fn mark(&self) -> Mark
        ensures { result.0 ≡ length (seen self.now).past };

    /// Takes back all changes after a mark. It needs no memory.
    fn back(&mut self, to: Mark)
        requires stands { stands self.old }
        requires made { to.0 ≤ length (seen self.old).past }
        ensures back { GoesBack to.0 (seen self.old) (seen self.new) }
        ensures stands { stands self.new };

    /// How often a call below has failed.
    fn faults(&self) -> u64
        ensures { result ≡ (seen self.now).below.faults.count };
}
