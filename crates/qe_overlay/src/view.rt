//! The tables of a connector, seen through an overlay.
ghost use Rattle.std.specs.Prelude.{◌≡◌, ◌<◌, ◌^◌, ◌-◌, true, [], length, OnOk, OnErr};
ghost use Rattle.qe_view.specs.Attached.{FitLayout, CanApply};
ghost use Rattle.qe_view.specs.Right.{has_table};
ghost use Rattle.qe_schema.specs.Tables.{table_at};
ghost use Rattle.qe_overlay.specs.Held.{none_kept};
ghost use Rattle.qe_overlay.specs.Settled.{AppliesAny, Settles};

use crate::layer::id_columns;
use crate::overlay::Overlay;
use qe_base::{ColumnTest, Row, Rows, Shared, Table, TableId, Value};
use qe_schema::Schema;
use qe_text::{Items, Memory};
use qe_view::{Change, ConnFault, Connector, Mark, View, id_row, pair_row};
use std::mem;

/// The tables of a schema that a connector keeps, with the changes of an overlay. Changes stay in the overlay, and
/// each reading makes one call below. A page asks there for as many more rows as the table has entries.
#[derive(Drop)]
pub struct OverlayView<C> {
    schema: Shared<Schema>,
    overlay: Overlay,
    below: C,
}

/// The table of a number.
fn shape_of(schema: &Schema, table: TableId) -> &Table
    requires { has_table schema.now table.0 ≡ true }
    ensures { result.now ≡ table_at schema.now table.0 }
{
    &schema.table_list()[table.0 as usize]
}

/// Rows are always fewer than a count can say.
fn are_few(rows: &[Row])
    ensures { length rows.now < 2 ^ 64 - 1 }
{
    let _more = rows.len() + 1;
}

/// Makes changes, if there are any.
fn apply_any<C: Connector>(below: &mut C, changes: &Items<Change>) -> Result<(), ConnFault>
    requires can { CanApply (C.seen below.old) changes.now }
    requires fits { FitLayout (C.seen below.old) }
    ensures applies { AppliesAny changes.now (C.seen below.old) (C.seen below.new) result }
    ensures none { changes.now ≡ [] → C.seen below.new ≡ C.seen below.old }
{
    if changes.is_empty() {
        return Ok(());
    }
    below.apply(changes.as_slice())
}

impl<C> OverlayView<C> {
    /// The tables below with what the overlay holds.
    pub fn over(schema: Shared<Schema>, overlay: Overlay, below: C) -> OverlayView<C>
        ensures schema { result.schema ≡ schema }
        ensures overlay { result.overlay ≡ overlay }
        ensures below { result.below ≡ below }
    {
        OverlayView {
            schema,
            overlay,
            below,
        }
    }

    /// The overlay, and what is below.
    pub fn release(self) -> (Overlay, C)
        ensures overlay { result.0 ≡ self.overlay }
        ensures below { result.1 ≡ self.below }
    {
        let OverlayView {
            schema: _schema,
            overlay,
            below,
        } = self;
        (overlay, below)
    }

    /// The schema of the tables.
    pub fn schema(&self) -> &Schema
        ensures { result.now ≡ self.now.schema }
    {
        self.schema.get()
    }

    /// Exchanges the overlay with another.
    pub fn swap(&mut self, other: &mut Overlay)
        ensures given { other.new ≡ self.old.overlay }
        ensures overlay { self.new.overlay ≡ other.old }
        ensures schema { self.new.schema ≡ self.old.schema }
        ensures below { self.new.below ≡ self.old.below }
    {
        mem::swap(&mut self.overlay, other);
    }

    /// Forgets all changes. It takes no memory.
    pub fn forget(&mut self)
        ensures overlay { self.new.overlay ≡ none_kept }
        ensures schema { self.new.schema ≡ self.old.schema }
        ensures below { self.new.below ≡ self.old.below }
    {
        self.overlay.clear();
    }
}

impl<C: Connector> OverlayView<C> {
    ghost use Rattle.qe_overlay.specs.Fits.{Stands, viewed_by};
    ghost use Rattle.qe_overlay.specs.Held.{held_in};
    ghost use Rattle.qe_overlay.specs.Layers.{no_layers};

    /// Makes all changes below, or none of them, by one call if there are any. After a refusal they are still
    /// in the overlay.
    pub fn settle(&mut self) -> Result<(), ConnFault>
        requires { Stands self.old.schema (held_in self.old.overlay) (C.seen self.old.below) }
        ensures settles { Settles (viewed_by self.old.schema self.old.overlay (C.seen self.old.below)) (viewed_by self.new.schema self.new.overlay (C.seen self.new.below)) result }
        ensures empty { OnOk result (self.new.overlay ≡ none_kept) }
        ensures kept { OnErr result (held_in self.new.overlay ≡ held_in self.old.overlay) }
        ensures stands { Stands self.new.schema (held_in self.new.overlay) (C.seen self.new.below) }
        ensures schema { self.new.schema ≡ self.old.schema }
        ensures idle { (held_in self.old.overlay).layers ≡ no_layers → (C.seen self.new.below).calls ≡ (C.seen self.old.below).calls }
    {
        let changes = self.overlay.changes(self.schema.get())?;
        apply_any(&mut self.below, &changes)?;
        self.overlay.clear();
        Ok(())
    }
}

impl<C: Connector> View for OverlayView<C> {
    ghost use Rattle.qe_overlay.specs.Fits.{Stands, viewed, stands_fit};
    ghost use Rattle.qe_overlay.specs.Held.{held_in};

    ghost seen = { λ v. viewed v.schema (held_in v.overlay) (C.seen v.below) };

    ghost stands = { λ v. Stands v.schema (held_in v.overlay) (C.seen v.below) };

    ghost fits = { λ v s. stands_fit v.schema (held_in v.overlay) (C.seen v.below) s };

    fn load(&mut self, table: TableId, columns: &[u16], keys: &[Row]) -> Result<Rows, ConnFault> {
        let found = self.below.load(table, columns, keys)?;
        let shape = shape_of(self.schema.get(), table);
        let rows = self
            .overlay
            .wanted_over(table, shape, columns, keys, found)?;
        Ok(rows)
    }

    fn scan(&mut self, table: TableId, tests: &[ColumnTest]) -> Result<Rows, ConnFault> {
        let found = self.below.scan(table, tests)?;
        let shape = shape_of(self.schema.get(), table);
        let rows = self.overlay.passing_over(table, shape, tests, found)?;
        Ok(rows)
    }

    fn page(
        &mut self,
        table: TableId,
        from: Option<&Row>,
        backward: bool,
        count: usize,
    ) -> Result<Rows, ConnFault> {
        // Each entry hides at most one row below.
        let held = self.overlay.entered(table);
        let most = count.saturating_add(held);
        let found = self.below.page(table, from, backward, most)?;
        are_few(found.rows.as_slice());
        let shape = shape_of(self.schema.get(), table);
        let rows = self
            .overlay
            .page_over(table, shape, from, backward, count, found)?;
        Ok(rows)
    }

    fn last(&mut self, table: TableId) -> Result<i64, ConnFault> {
        let below = self.below.last(table)?;
        Ok(self.overlay.last_over(table, below))
    }

    fn put(&mut self, table: TableId, row: Row) -> Result<(), ConnFault> {
        let shape = shape_of(self.schema.get(), table);
        let id = id_row(self.overlay.allocator(), id_columns(shape), &row)?;
        self.overlay.put(table, id, row)?;
        Ok(())
    }

    fn remove(&mut self, table: TableId, id: &Row) -> Result<(), ConnFault> {
        let id = id.share()?;
        self.overlay.remove(table, id)?;
        Ok(())
    }

    fn link(&mut self, table: TableId, a: Value, b: Value) -> Result<(), ConnFault> {
        let pair = pair_row(self.overlay.allocator(), &a, &b)?;
        self.overlay.link(table, pair)?;
        Ok(())
    }

    fn unlink(&mut self, table: TableId, a: &Value, b: &Value) -> Result<(), ConnFault> {
        let pair = pair_row(self.overlay.allocator(), a, b)?;
        self.overlay.remove(table, pair)?;
        Ok(())
    }

    fn raise(&mut self, table: TableId, last: i64) -> Result<(), Memory> {
        self.overlay.raise(table, last)?;
        Ok(())
    }

    fn mark(&self) -> Mark {
        self.overlay.mark()
    }

    fn back(&mut self, to: Mark) {
        self.overlay.back(to);
    }

    fn faults(&self) -> u64 {
        self.below.faults()
    }
}
