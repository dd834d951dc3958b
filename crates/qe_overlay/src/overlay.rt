//! What is entered of all tables, and how it is taken back.
ghost use Rattle.std.specs.Prelude.{◌≡◌, ◌≤◌, ◌<◌, ◌+◌, ◌∷◌, ◌++◌, [], length, IfOk, OnOk, OnErr, None, Some};
ghost use Rattle.std.specs.Option.{option_copied};
ghost use Rattle.qe_schema.specs.Tests.{passes};
ghost use Rattle.qe_view.specs.After.{is_wanted};
ghost use Rattle.qe_overlay.specs.Fits.{LiesOver, PageLiesOver};
ghost use Rattle.qe_overlay.specs.Layers.{no_layers, over_last};
ghost use Rattle.qe_overlay.specs.Settled.{SettlesBelow};
ghost use Rattle.qe_overlay.specs.Held.{held_in, entries_in, layers_in, none_kept, entered, raised, undone, HeldGoesBack, is_listed as has_number, narrowed};

use crate::changes::all_changes;
use crate::layer::Layer;
use qe_base::{ColumnTest, Row, Rows, Table, TableId};
use qe_schema::Schema;
use qe_text::{Items, Memory};
use qe_view::{Change, Mark};
use std::alloc::Global;
use std::marker::Model;

/// What takes one change back.
#[derive(Drop)]
pub enum Undo {
    /// What stood under an id.
    Entered {
        table: TableId,
        id: Row,
        before: Option<Option<Row>>,
    },
    /// What the counter was.
    Raised {
        table: TableId,
        before: Option<i64>,
    },
}

/// Changes of the rows, pairs and counters of tables, and the changes that take them back. Contracts see the
/// layers, and what they were before each change.
#[derive(Drop)]
pub struct Overlay {
    alloc: Global,
    layers: Vec<Layer>,
    log: Vec<Undo>,
}

impl Model for Overlay {
    ghost use Rattle.qe_overlay.specs.Held.{KeptLayers};

    ghost Value = { KeptLayers };

    ghost view = { λ o. record { layers = o.layers.items; log = o.log.items } };
}

impl Overlay {
    /// No changes. It takes no memory.
    pub fn new(alloc: Global) -> Overlay
        ensures { result ≡ none_kept }
    {
        Overlay {
            alloc,
            layers: Vec::new(alloc),
            log: Vec::new(alloc),
        }
    }

    /// Makes sure that there is a layer for a table.
    fn reach(&mut self, table: TableId) -> Result<(), Memory>
        ensures held { held_in self.new ≡ held_in self.old }
        ensures reached { OnOk result (table.0 < length self.new.layers) }
    {
        'layers: while self.layers.len() <= table.0 as usize {
            self.layers.push(Layer::new(self.alloc))?;
        }
        Ok(())
    }

    /// Enters what stands under an id now. After a refusal all is as before.
    fn enter(&mut self, table: TableId, id: Row, now: Option<Row>) -> Result<(), Memory>
        ensures ok { OnOk result (held_in self.new ≡ entered table.0 id now (held_in self.old)) }
        ensures err { OnErr result (held_in self.new ≡ held_in self.old) }
    {
        let under = id.share()?;
        self.reach(table)?;
        self.log.reserve(1)?;
        let layer = &mut self.layers[table.0 as usize];
        let before = layer.enter(id, now)?;
        self.log.push_reserved(Undo::Entered {
            table,
            id: under,
            before,
        });
        Ok(())
    }

    /// Raises the counter of a table. After a refusal all is as before.
    pub fn raise(&mut self, table: TableId, last: i64) -> Result<(), Memory>
        ensures ok { OnOk result (held_in self.new ≡ raised table.0 last (held_in self.old)) }
        ensures err { OnErr result (held_in self.new ≡ held_in self.old) }
    {
        self.reach(table)?;
        self.log.reserve(1)?;
        let layer = &mut self.layers[table.0 as usize];
        let before = layer.raise(last);
        self.log.push_reserved(Undo::Raised { table, before });
        Ok(())
    }

    /// How many changes there are that can be taken back.
    pub fn mark(&self) -> Mark
        ensures { result.0 ≡ length (held_in self.now).past }
    {
        Mark(self.log.len() as u64)
    }

    /// Changes the layers to what they were before a change.
    fn undo(&mut self, undo: Undo)
        ensures layers { layers_in self.new.layers ≡ undone undo (layers_in self.old.layers) }
        ensures log { self.new.log ≡ self.old.log }
    {
        match undo {
            Undo::Entered { table, id, before } => {
                let at = table.0 as usize;
                if at < self.layers.len() {
                    let layer = &mut self.layers[at];
                    layer.set_back(&id, before);
                }
            }
            Undo::Raised { table, before } => {
                let at = table.0 as usize;
                if at < self.layers.len() {
                    let layer = &mut self.layers[at];
                    layer.set_last(before);
                }
            }
        }
    }

    /// Takes the last change back, if there is one.
    fn undo_last(&mut self)
        ensures none { self.old.log ≡ [] → self.new ≡ self.old }
        ensures one { 0 < length self.old.log → length self.new.log + 1 ≡ length self.old.log }
        ensures past { 0 < length self.old.log → (held_in self.old).past ≡ (held_in self.new).past ++ (held_in self.new).layers ∷ [] }
    {
        if let Some(undo) = self.log.pop() {
            self.undo(undo);
        }
    }

    /// Takes back all changes after a mark. It takes no memory.
    pub fn back(&mut self, to: Mark)
        requires { to.0 ≤ length (held_in self.old).past }
        ensures { HeldGoesBack to.0 (held_in self.old) (held_in self.new) }
    {
        'changes: while self.mark().0 > to.0 {
            self.undo_last();
        }
    }

    /// Puts a row under its id.
    pub fn put(&mut self, table: TableId, id: Row, row: Row) -> Result<(), Memory>
        ensures ok { OnOk result (held_in self.new ≡ entered table.0 id (Some row) (held_in self.old)) }
        ensures err { OnErr result (held_in self.new ≡ held_in self.old) }
    {
        self.enter(table, id, Some(row))
    }

    /// Removes what stands under an id, a row or a pair.
    pub fn remove(&mut self, table: TableId, id: Row) -> Result<(), Memory>
        ensures ok { OnOk result (held_in self.new ≡ entered table.0 id None (held_in self.old)) }
        ensures err { OnErr result (held_in self.new ≡ held_in self.old) }
    {
        self.enter(table, id, None)
    }

    /// Puts a pair of a link table.
    pub fn link(&mut self, table: TableId, pair: Row) -> Result<(), Memory>
        ensures ok { OnOk result (held_in self.new ≡ entered table.0 pair (Some pair) (held_in self.old)) }
        ensures err { OnErr result (held_in self.new ≡ held_in self.old) }
    {
        let under = pair.share()?;
        self.enter(table, under, Some(pair))
    }

    /// Forgets all changes. It takes no memory.
    pub fn clear(&mut self)
        ensures { self.new ≡ none_kept }
    {
        self.layers.clear();
        self.log.clear();
    }

    /// Drops what is held of all tables but these. It takes no memory. Marks from before mean nothing after
    /// it: what is left can't be taken back.
    pub fn narrow(&mut self, tables: &[TableId])
        ensures layers { (held_in self.new).layers ≡ narrowed tables.now (held_in self.old).layers }
        ensures past { (held_in self.new).past ≡ [] }
    {
        narrow_layers(&mut self.layers, tables);
        self.log.clear();
    }

    /// What it takes memory from.
    pub(crate) fn allocator(&self) -> Global {
        self.alloc
    }

    /// Rows below with the entered ones laid over them that have one of the keys in the columns.
    pub fn wanted_over(
        &self,
        table: TableId,
        shape: &Table,
        columns: &[u16],
        keys: &[Row],
        rows: Rows,
    ) -> Result<Rows, Memory>
        ensures { IfOk result (λ seen. LiesOver shape.now (entries_in self.now table.0) (is_wanted columns.now keys.now) rows.rows seen.rows) }
    {
        match self.layers.get(table.0 as usize) {
            None => Ok(rows),
            Some(layer) => layer.wanted_over(self.alloc, shape, columns, keys, rows),
        }
    }

    /// Rows below with the entered ones laid over them that pass all of the tests.
    pub fn passing_over(
        &self,
        table: TableId,
        shape: &Table,
        tests: &[ColumnTest],
        rows: Rows,
    ) -> Result<Rows, Memory>
        ensures { IfOk result (λ seen. LiesOver shape.now (entries_in self.now table.0) (passes tests.now) rows.rows seen.rows) }
    {
        match self.layers.get(table.0 as usize) {
            None => Ok(rows),
            Some(layer) => layer.passing_over(self.alloc, shape, tests, rows),
        }
    }

    /// How many ids of a table have an entry.
    pub fn entered(&self, table: TableId) -> usize
        ensures { result ≡ length (entries_in self.now table.0) }
    {
        match self.layers.get(table.0 as usize) {
            None => 0,
            Some(layer) => layer.entries.len(),
        }
    }

    /// A page of at most `count` rows, of a page below with the entered rows laid over it.
    pub fn page_over(
        &self,
        table: TableId,
        shape: &Table,
        from: Option<&Row>,
        backward: bool,
        count: usize,
        rows: Rows,
    ) -> Result<Rows, Memory>
        ensures { IfOk result (λ seen. PageLiesOver shape.now (entries_in self.now table.0) (option_copied from.entry) backward count rows.rows seen.rows) }
    {
        match self.layers.get(table.0 as usize) {
            None => Ok(rows),
            Some(layer) => layer.page_over(self.alloc, shape, from, backward, count, rows),
        }
    }

    /// A counter below, or the one that it was raised to.
    pub fn last_over(&self, table: TableId, below: i64) -> i64
        ensures { result ≡ over_last ((held_in self.now).layers table.0).last below }
    {
        match self.layers.get(table.0 as usize) {
            None => below,
            Some(layer) => layer.last_over(below),
        }
    }

    /// The changes that make of the tables below those that are seen.
    pub fn changes(&self, schema: &Schema) -> Result<Items<Change>, Memory>
        ensures settles { IfOk result (λ changes. SettlesBelow schema.now (held_in self.now).layers changes) }
        ensures none { IfOk result (λ changes. (held_in self.now).layers ≡ no_layers → changes ≡ []) }
    {
        let count = self.layers.len().min(schema.tables() as usize);
        all_changes(self.alloc, schema, &self.layers[..count])
    }
}

/// Whether one of the tables has this number.
fn is_listed(tables: &[TableId], number: usize) -> bool
    ensures { result ≡ has_number tables.now number }
{
    tables.iter().any(|table| table.0 as usize == number)
}

/// Drops what is held of all tables but these.
fn narrow_layers(layers: &mut [Layer], tables: &[TableId])
    ensures { layers_in layers.new ≡ narrowed tables.now (layers_in layers.old) }
{
    for number in 0..layers.len() {
        let layer = &mut layers[number];
        layer.keep_if(is_listed(tables, number));
    }
}
