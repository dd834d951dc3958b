//! Rows in the order of some columns.
ghost use Rattle.std.specs.Prelude.{◌≡◌, true, false, IfOk, OnOk, OnErr, is_some, take, reverse, filter};
ghost use Rattle.std.specs.Option.{option_copied};
ghost use Rattle.std.specs.BTreeSet.{insert_key, replace_key};
ghost use Rattle.std.specs.Set.{remove_key};
ghost use Rattle.qe_schema.specs.Tests.{passes as row_passes};
ghost use Rattle.qe_view.specs.After.{is_wanted as row_is_wanted, turned};
ghost use Rattle.qe_mem.specs.Keys.{row_order, stands_at, under};
ghost use Rattle.qe_mem.specs.Listings.{rows_in, no_listing, found_at, IsInOrder, has_key, goes_by, is_beyond, page_of};
ghost use Rattle.qe_mem.specs.Gathered.{has_one_of, with_all, gathered, IsIndexOf};
ghost use Rattle.qe_mem.specs.declared.keyed.Columns.TheVariants.{Whole};

use crate::keyed::{Columns, Keyed};
use qe_base::{ColumnTest, Row, Shared};
use qe_text::{Items, Memory};
use qe_view::{is_wanted, passes};
use std::alloc::Global;
use std::collections::BTreeSet;
use std::collections::btree_set::Range;
use std::marker::Model;

/// Rows in the order of some columns. Contracts see the columns and the rows.
#[derive(Drop)]
pub struct Listing {
    alloc: Global,
    columns: Shared<Columns>,
    whole: Shared<Columns>,
    kept: BTreeSet<Keyed>,
}

impl Model for Listing {
    ghost use Rattle.std.specs.Prelude.{◌≡◌};
    ghost use Rattle.qe_mem.specs.Listings.{Listing, rows_in, AreKeyed};
    ghost use Rattle.qe_mem.specs.declared.keyed.Columns.TheVariants.{Whole};

    ghost Value = { Listing };

    ghost view = { λ l. record { columns = l.columns; rows = rows_in l.kept.keys } };

    ghost invariant = { λ l. AreKeyed l.columns l.kept.keys × (l.whole ≡ Whole) };
}

impl Listing {
    /// No rows.
    pub fn new(alloc: Global, columns: Columns) -> Result<Listing, Memory>
        ensures { IfOk result (λ listing. listing ≡ no_listing columns) }
    {
        Ok(Listing {
            alloc,
            columns: Shared::new(alloc, columns)?,
            whole: Shared::new(alloc, Columns::Whole)?,
            kept: BTreeSet::new(alloc),
        })
    }

    /// No rows, in the order of this one.
    pub fn alike(&self) -> Result<Listing, Memory>
        ensures { IfOk result (λ listing. listing ≡ no_listing self.now.columns) }
    {
        Ok(Listing {
            alloc: self.alloc,
            columns: self.columns.share()?,
            whole: self.whole.share()?,
            kept: BTreeSet::new(self.alloc),
        })
    }

    /// Its rows are in order.
    #[tactic(auto, using(crate::proofs::Keeping::rows_sorted))]
    pub fn is_in_order(&self)
        ensures { IsInOrder self.now }
    {
        let _count = self.kept.len();
    }

    /// Whether it goes by these columns.
    pub fn goes_by(&self, columns: &[u16]) -> bool
        ensures { result ≡ goes_by columns.now self.now.columns }
    {
        match self.columns.get() {
            Columns::Whole => false,
            Columns::Listed { key, .. } => columns == key.as_slice(),
        }
    }

    /// A row under its columns.
    pub fn keyed(&self, row: &Row) -> Result<Keyed, Memory>
        ensures { IfOk result (λ place. place ≡ under self.now.columns row.now) }
    {
        Ok(Keyed {
            columns: self.columns.share()?,
            row: row.share()?,
        })
    }

    /// The place of a key.
    pub fn place(&self, key: &Row) -> Result<Keyed, Memory>
        ensures { IfOk result (λ place. place ≡ under Whole key.now) }
    {
        Ok(Keyed {
            columns: self.whole.share()?,
            row: key.share()?,
        })
    }

    /// The row at a place, if there is one.
    #[tactic(auto, using(crate::proofs::Keeping::rows_find))]
    pub fn get(&self, place: &Keyed) -> Option<&Row>
        ensures { option_copied result ≡ found_at self.now place.now }
    {
        match self.kept.get(place) {
            Some(found) => Some(&found.row),
            None => None,
        }
    }

    /// Enters a row, unless one stands at its place.
    #[tactic(auto, using(crate::proofs::Keeping::keyed_insert, crate::proofs::Keeping::rows_insert))]
    pub fn insert(&mut self, keyed: Keyed) -> Result<(), Memory>
        requires { keyed.columns ≡ self.old.columns }
        ensures ok { OnOk result (self.new ≡ record self.old { rows = insert_key (row_order self.old.columns) self.old.rows keyed.row }) }
        ensures err { OnErr result (self.new ≡ self.old) }
    {
        self.kept.insert(keyed)?;
        Ok(())
    }

    /// Takes the row at a place out.
    #[tactic(auto, using(crate::proofs::Keeping::keyed_remove, crate::proofs::Keeping::rows_remove))]
    pub fn remove(&mut self, place: &Keyed)
        ensures { self.new ≡ record self.old { rows = remove_key (stands_at self.old.columns place.now) self.old.rows } }
    {
        self.kept.remove(place);
    }

    /// Puts a row in the place of the one that stands there. It takes no memory.
    #[tactic(auto, using(crate::proofs::Keeping::keyed_replace, crate::proofs::Keeping::rows_replace, crate::proofs::Keeping::rows_find))]
    pub fn replace(&mut self, keyed: Keyed)
        requires under { keyed.columns ≡ self.old.columns }
        requires there { is_some (found_at self.old keyed) ≡ true }
        ensures { self.new ≡ record self.old { rows = replace_key (row_order self.old.columns) self.old.rows keyed.row } }
    {
        let _old = self.kept.replace(keyed);
    }

    /// The rows with this key, in the order of their ids.
    #[tactic(auto, using(crate::proofs::Finding::found, crate::proofs::Finding::lead_step, crate::proofs::Finding::lead_stop, crate::proofs::Finding::lead_end))]
    pub fn find(&self, key: &Row) -> Result<Items<Row>, Memory>
        ensures { IfOk result (λ rows. rows ≡ filter (has_key self.now.columns key.now.values) self.now.rows) }
    {
        let from = self.place(key)?;
        let mut rows = Items::new(self.alloc);
        for keyed in self.kept.range(&from..) {
            if !from.compare_keys(keyed).is_eq() {
                return Ok(rows);
            }
            rows.push(keyed.row.share()?)?;
        }
        Ok(rows)
    }

    /// Enters rows, but for those at whose places others stand.
    fn insert_all(&mut self, rows: &[Row]) -> Result<(), Memory>
        ensures { OnOk result (self.new ≡ with_all rows.now self.old) }
    {
        for row in rows {
            let keyed = self.keyed(row)?;
            self.insert(keyed)?;
        }
        Ok(())
    }

    /// The rows of a table that have one of the keys, in the order of their ids and each once, where this
    /// is an order of the table.
    pub fn find_all(&self, table: &Listing, keys: &[Row]) -> Result<Items<Row>, Memory>
        requires index { IsIndexOf table.now self.now }
        requires in_order { IsInOrder table.now }
        ensures { IfOk result (λ rows. rows ≡ filter (has_one_of self.now.columns keys.now) table.now.rows) }
    {
        match keys {
            [key] => self.find(key),
            _ => self.gather(table, keys),
        }
    }

    /// The same by an order of what was found.
    fn gather(&self, table: &Listing, keys: &[Row]) -> Result<Items<Row>, Memory>
        ensures { IfOk result (λ rows. rows ≡ (gathered self.now keys.now (no_listing table.now.columns)).rows) }
    {
        let mut found = table.alike()?;
        for key in keys {
            let rows = self.find(key)?;
            found.insert_all(rows.as_slice())?;
        }
        found.all()
    }

    /// The rows that have one of the keys in the columns, by a look at each row.
    pub fn wanted(&self, columns: &[u16], keys: &[Row]) -> Result<Items<Row>, Memory>
        ensures { IfOk result (λ rows. rows ≡ filter (row_is_wanted columns.now keys.now) self.now.rows) }
    {
        let mut rows = Items::new(self.alloc);
        for keyed in self.kept.iter() {
            if is_wanted(columns, keys, &keyed.row) {
                rows.push(keyed.row.share()?)?;
            }
        }
        Ok(rows)
    }

    /// The rows that pass the tests.
    pub fn passing(&self, tests: &[ColumnTest]) -> Result<Items<Row>, Memory>
        ensures { IfOk result (λ rows. rows ≡ filter (row_passes tests.now) self.now.rows) }
    {
        let mut rows = Items::new(self.alloc);
        for keyed in self.kept.iter() {
            if passes(tests, &keyed.row) {
                rows.push(keyed.row.share()?)?;
            }
        }
        Ok(rows)
    }

    /// All rows.
    pub fn all(&self) -> Result<Items<Row>, Memory>
        ensures { IfOk result (λ rows. rows ≡ self.now.rows) }
    {
        let mut rows = Items::new(self.alloc);
        for keyed in self.kept.iter() {
            rows.push(keyed.row.share()?)?;
        }
        Ok(rows)
    }

    /// At most so many rows from a key on, with those of it, or up to it, the last one first.
    pub fn page(
        &self,
        from: Option<&Row>,
        backward: bool,
        count: usize,
    ) -> Result<Items<Row>, Memory>
        ensures { IfOk result (λ rows. rows ≡ page_of self.now.columns (option_copied from.entry) backward count self.now.rows) }
    {
        if backward {
            self.last(from, count)
        } else {
            self.first(from, count)
        }
    }

    /// At most so many rows from a key on, with those of it.
    #[tactic(auto, using(crate::proofs::Finding::rows_from, crate::proofs::Finding::rows_all))]
    fn first(&self, from: Option<&Row>, count: usize) -> Result<Items<Row>, Memory>
        ensures { IfOk result (λ rows. rows ≡ take count (filter (is_beyond self.now.columns (option_copied from.entry) false) self.now.rows)) }
    {
        match from {
            None => first_rows(self.alloc, self.kept.range(..), count),
            Some(key) => {
                let place = self.place(key)?;
                first_rows(self.alloc, self.kept.range(&place..), count)
            }
        }
    }

    /// At most so many rows up to a key, with those of it, the last one first.
    #[tactic(auto, using(crate::proofs::Finding::rows_up_to, crate::proofs::Finding::rows_all_back))]
    fn last(&self, from: Option<&Row>, count: usize) -> Result<Items<Row>, Memory>
        ensures { IfOk result (λ rows. rows ≡ take count (reverse (filter (is_beyond self.now.columns (option_copied from.entry) true) self.now.rows))) }
    {
        match from {
            None => last_rows(self.alloc, self.kept.range(..), count),
            Some(key) => {
                let place = self.place(key)?;
                last_rows(self.alloc, self.kept.range(..=&place), count)
            }
        }
    }
}

/// The first rows of a range.
fn first_rows(alloc: Global, range: Range<'_, Keyed>, count: usize) -> Result<Items<Row>, Memory>
    ensures { IfOk result (λ rows. rows ≡ take count (rows_in range.entry)) }
{
    let mut rows = Items::new(alloc);
    for keyed in range {
        if rows.len() == count {
            return Ok(rows);
        }
        rows.push(keyed.row.share()?)?;
    }
    Ok(rows)
}

/// The last rows of a range, the last first.
fn last_rows(alloc: Global, range: Range<'_, Keyed>, count: usize) -> Result<Items<Row>, Memory>
    ensures { IfOk result (λ rows. rows ≡ take count (reverse (rows_in range.entry))) }
{
    let mut rows = Items::new(alloc);
    let mut range = range;
    'rows: while rows.len() < count {
        match range.next_back() {
            None => return Ok(rows),
            Some(keyed) => rows.push(keyed.row.share()?)?,
        }
    }
    Ok(rows)
}
