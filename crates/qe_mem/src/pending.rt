//! What is to stand at the ids of a table.
ghost use Rattle.std.specs.Prelude.{◌≡◌, [], IfOk, OnOk, OnErr, Option, map};
ghost use Rattle.std.specs.Option.{option_copied};
ghost use Rattle.qe_mem.specs.Plans.{with_entry, swap_at};

use crate::keyed::Keyed;
use crate::listing::Listing;
use crate::turns::Swap;
use qe_base::{Row, TableId};
use qe_text::{Items, Memory};
use std::alloc::Global;
use std::collections::BTreeMap;
use std::marker::Model;

/// What a change comes to: a row or none at an id of a table.
#[derive(Drop)]
pub struct Step {
    pub table: TableId,
    pub place: Keyed,
    pub row: Option<Row>,
}

/// A row or none at each id of some, in the order of the ids. Contracts see them as a list.
#[derive(Drop)]
pub struct Pending {
    alloc: Global,
    rows: BTreeMap<Keyed, Option<Row>>,
}

impl Model for Pending {
    ghost use Rattle.qe_mem.specs.Plans.{Pending as Entries};

    ghost Value = { Entries };

    ghost view = { λ p. p.rows.entries };
}

/// The same row for one more owner, if there is one.
fn share_found(found: Option<&Row>) -> Result<Option<Row>, Memory>
    ensures { IfOk result (λ row. row ≡ option_copied found.entry) }
{
    match found {
        None => Ok(None),
        Some(row) => Ok(Some(row.share()?)),
    }
}

impl Pending {
    /// Nothing at any id.
    pub fn new(alloc: Global) -> Pending
        ensures { result ≡ [] }
    {
        Pending {
            alloc,
            rows: BTreeMap::new(alloc),
        }
    }

    /// What gives its memory.
    pub fn alloc(&self) -> Global {
        self.alloc
    }

    /// A row or none at an id, in place of what was to stand there.
    pub fn set(&mut self, place: Keyed, row: Option<Row>) -> Result<(), Memory>
        ensures ok { OnOk result (self.new ≡ with_entry place row self.old) }
        ensures err { OnErr result (self.new ≡ self.old) }
    {
        self.rows.insert(place, row)?;
        Ok(())
    }

    /// What stands at each id, and is to stand there.
    pub fn swaps(self, rows: &Listing) -> Result<Items<Swap>, Memory>
        ensures { IfOk result (λ swaps. swaps ≡ map (swap_at rows.now) self) }
    {
        let Pending { alloc, rows: all } = self;
        let mut swaps = Items::new(alloc);
        for (place, new) in all {
            let old = share_found(rows.get(&place))?;
            swaps.push(Swap { old, new })?;
        }
        Ok(swaps)
    }
}
