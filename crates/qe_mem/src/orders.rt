//! The further orders of a table.
ghost use Rattle.std.specs.Prelude.{◌≡◌, [], ◌∷◌, ◌++◌, IfOk, OnOk, OnErr, Option, map, find};
ghost use Rattle.std.specs.Option.{option_copied};
ghost use Rattle.qe_mem.specs.Listings.{goes_by};
ghost use Rattle.qe_mem.specs.Turns.{entered_all, left_all, settled_all, CanEnter, CanSettle};
ghost use Rattle.qe_mem.specs.Each.{each, AllOfBoth};
ghost use Rattle.qe_mem.specs.Plans.{turns_in};

use crate::listing::Listing;
use crate::turns::{Swap, Turn};
use qe_text::{Items, Memory};
use std::alloc::Global;
use std::marker::Model;

/// Orders of the rows of a table. Contracts see them as a list.
#[derive(Drop)]
pub struct Orders {
    alloc: Global,
    listings: Vec<Listing>,
}

impl Model for Orders {
    ghost use Rattle.std.specs.Prelude.{List};
    ghost use Rattle.qe_mem.specs.Listings.{Listing};

    ghost Value = { List Listing };

    ghost view = { λ o. o.listings.items };
}

impl Orders {
    /// No orders.
    pub fn new(alloc: Global) -> Orders
        ensures { result ≡ [] }
    {
        Orders {
            alloc,
            listings: Vec::new(alloc),
        }
    }

    /// One more.
    pub fn add(&mut self, listing: Listing) -> Result<(), Memory>
        ensures ok { OnOk result (self.new ≡ self.old ++ listing ∷ []) }
        ensures err { OnErr result (self.new ≡ self.old) }
    {
        self.listings.push(listing)?;
        Ok(())
    }

    /// The first that goes by these columns, if one does.
    pub fn by(&self, columns: &[u16]) -> Option<&Listing>
        ensures { option_copied result ≡ find (λ listing. goes_by columns.now listing.columns) self.now }
    {
        for listing in &self.listings {
            if listing.goes_by(columns) {
                return Some(listing);
            }
        }
        None
    }

    /// The turns that changes are in each order.
    pub fn turns(&self, swaps: &[Swap]) -> Result<Items<Items<Turn>>, Memory>
        ensures { IfOk result (λ plan. plan ≡ map (turns_in swaps.now) self.now) }
    {
        let mut plan = Items::new(self.alloc);
        for listing in &self.listings {
            plan.push(listing.turns(self.alloc, swaps)?)?;
        }
        Ok(plan)
    }

    /// Enters in each order what comes to places of its own, or nothing in any.
    pub fn enter(&mut self, plan: &[Items<Turn>]) -> Result<(), Memory>
        requires { AllOfBoth CanEnter plan.now self.old }
        ensures ok { OnOk result (self.new ≡ each entered_all plan.now self.old) }
        ensures err { OnErr result (self.new ≡ self.old) }
    {
        let mut done = 0;
        'orders: while done < plan.len() {
            if let Err(memory) = self.listings[done].enter_all(plan[done].as_slice()) {
                self.leave(&plan[..done]);
                return Err(memory);
            }
            done += 1;
        }
        Ok(())
    }

    /// Takes out of each order what was entered.
    pub fn leave(&mut self, plan: &[Items<Turn>])
        ensures { self.new ≡ each left_all plan.now self.old }
    {
        let mut left = plan.len();
        'orders: while left > 0 {
            left -= 1;
            if left < self.listings.len() {
                self.listings[left].leave_all(plan[left].as_slice());
            }
        }
    }

    /// Takes out of each order what goes, and puts what takes its place.
    pub fn settle(&mut self, plan: Items<Items<Turn>>)
        requires { AllOfBoth CanSettle plan self.old }
        ensures { self.new ≡ each settled_all plan self.old }
    {
        let mut plan = plan;
        'orders: while let Some(turns) = plan.pop() {
            let at = plan.len();
            self.listings[at].settle_all(turns);
        }
    }
}
