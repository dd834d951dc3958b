//! What changes of rows come to in one order: rows come, go, take the place of others, or shift.
ghost use Rattle.std.specs.Prelude.{◌≡◌, IfOk, OnOk, OnErr, map};
ghost use Rattle.qe_mem.specs.Turns.{turn_over as turn_for_two, turn_of, IsUnder, IsThere, CanEnter, CanSettle};
ghost use Rattle.qe_mem.specs.Turns.{entered, left, settled, entered_all, left_all, settled_all};

use crate::keyed::Keyed;
use crate::listing::Listing;
use qe_base::Row;
use qe_text::{Items, Memory};
use std::alloc::Global;

/// What stands at an id before and after.
#[derive(Drop)]
pub struct Swap {
    pub old: Option<Row>,
    pub new: Option<Row>,
}

/// What a change of a row comes to in one order.
#[derive(Drop)]
pub enum Turn {
    Stay,
    /// A row comes to a place of its own.
    Come(Keyed),
    /// A row goes.
    Go(Keyed),
    /// A row takes the place of another.
    Take(Keyed),
    /// A row goes, and another comes to a place of its own.
    Shift { from: Keyed, to: Keyed },
}

impl Listing {
    /// The turn by which a row comes after another of its id.
    fn turn_over(&self, old: &Row, new: &Row) -> Result<Turn, Memory>
        ensures { IfOk result (λ turn. turn ≡ turn_for_two self.now.columns old.now new.now) }
    {
        let from = self.keyed(old)?;
        let to = self.keyed(new)?;
        if to.cmp(&from).is_eq() {
            Ok(Turn::Take(to))
        } else {
            Ok(Turn::Shift { from, to })
        }
    }

    /// The turn that a change is.
    fn turn(&self, swap: &Swap) -> Result<Turn, Memory>
        ensures { IfOk result (λ turn. turn ≡ turn_of self.now.columns swap.now) }
    {
        match &swap.old {
            None => match &swap.new {
                None => Ok(Turn::Stay),
                Some(new) => Ok(Turn::Come(self.keyed(new)?)),
            },
            Some(old) => match &swap.new {
                None => Ok(Turn::Go(self.keyed(old)?)),
                Some(new) => self.turn_over(old, new),
            },
        }
    }

    /// The turns that changes are.
    pub fn turns(&self, alloc: Global, swaps: &[Swap]) -> Result<Items<Turn>, Memory>
        ensures { IfOk result (λ turns. turns ≡ map (turn_of self.now.columns) swaps.now) }
    {
        let mut turns = Items::new(alloc);
        for swap in swaps {
            turns.push(self.turn(swap)?)?;
        }
        Ok(turns)
    }

    /// Enters the row that comes to a place of its own.
    fn enter(&mut self, turn: &Turn) -> Result<(), Memory>
        requires { IsUnder self.old.columns turn.now }
        ensures ok { OnOk result (self.new ≡ entered turn.now self.old) }
        ensures err { OnErr result (self.new ≡ self.old) }
    {
        match turn {
            Turn::Come(to) => self.insert(to.share()?),
            Turn::Shift { to, .. } => self.insert(to.share()?),
            Turn::Stay => Ok(()),
            Turn::Go(_) => Ok(()),
            Turn::Take(_) => Ok(()),
        }
    }

    /// Takes the row out that was entered.
    fn leave(&mut self, turn: &Turn)
        ensures { self.new ≡ left turn.now self.old }
    {
        match turn {
            Turn::Come(to) => self.remove(to),
            Turn::Shift { to, .. } => self.remove(to),
            Turn::Stay => {}
            Turn::Go(_) => {}
            Turn::Take(_) => {}
        }
    }

    /// Takes out what goes, and puts what takes its place.
    fn settle(&mut self, turn: Turn)
        requires columns { IsUnder self.old.columns turn }
        requires there { IsThere turn self.old }
        ensures { self.new ≡ settled turn self.old }
    {
        match turn {
            Turn::Go(from) => self.remove(&from),
            Turn::Take(to) => self.replace(to),
            Turn::Shift { from, .. } => self.remove(&from),
            Turn::Stay => {}
            Turn::Come(_) => {}
        }
    }

    /// Enters all rows that come to places of their own, or none. Only this takes memory.
    pub fn enter_all(&mut self, turns: &[Turn]) -> Result<(), Memory>
        requires { CanEnter turns.now self.old }
        ensures ok { OnOk result (self.new ≡ entered_all turns.now self.old) }
        ensures err { OnErr result (self.new ≡ self.old) }
    {
        let mut done = 0;
        'turns: while done < turns.len() {
            if let Err(memory) = self.enter(&turns[done]) {
                self.leave_all(&turns[..done]);
                return Err(memory);
            }
            done += 1;
        }
        Ok(())
    }

    /// Takes all rows out that were entered.
    pub fn leave_all(&mut self, turns: &[Turn])
        ensures { self.new ≡ left_all turns.now self.old }
    {
        let mut left = turns.len();
        'turns: while left > 0 {
            left -= 1;
            self.leave(&turns[left]);
        }
    }

    /// Takes out all that goes, and puts all that takes its place.
    pub fn settle_all(&mut self, turns: Items<Turn>)
        requires { CanSettle turns self.old }
        ensures { self.new ≡ settled_all turns self.old }
    {
        let mut turns = turns;
        'turns: while let Some(turn) = turns.pop() {
            self.settle(turn);
        }
    }
}
