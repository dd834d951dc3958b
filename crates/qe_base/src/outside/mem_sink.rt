//! A place in memory to write to.
ghost use Rattle.std.specs.Prelude.{◌≡◌, ◌+◌, ◌≤◌, ◌↔◌, [], Some, IfOk, IfSome, IsErr, IsSome, IsTrue, length, option_map, vec_capacity};

use crate::outside::calls::Calls;
use crate::outside::{Failed, Outer, Sink};
use qe_text::Memory;
use sqlite_items::Items;
use std::alloc::Global;

/// A place in memory to write to. It tells what it took until a write goes past its room, and
/// listed writes fail.
#[derive(Drop)]
pub struct MemSink {
    taken: Vec<u8>,
    room: usize,
    tells: bool,
    writes: Calls,
    ghost has_room: { room ≤ vec_capacity taken },
}

impl MemSink {
    ghost use Rattle.qe_base.specs.Calls.{no_calls};
    ghost use Rattle.qe_base.specs.MemSink.{sink_taken, sink_room, sink_writes};

    /// A sink with room for so many bytes. The numbers of the writes that are to fail count from 1.
    pub fn new(alloc: Global, room: u64, fail: &[u64]) -> Result<MemSink, Memory>
        ensures taken { IfOk result (λ sink. sink_taken sink ≡ Some []) }
        ensures room { IfOk result (λ sink. sink_room sink ≡ room) }
        ensures writes { IfOk result (λ sink. sink_writes sink ≡ no_calls fail.now) }
    {
        let room = room as usize;
        let taken = Vec::with_capacity(alloc, room)?;
        let failing = Items::from_slice(alloc, fail)?;
        Ok(MemSink {
            taken,
            room,
            tells: true,
            writes: Calls::new(failing),
        })
    }

    /// The bytes that were taken, as long as it tells.
    pub fn taken(&self) -> &[u8]
        ensures { IfSome (sink_taken self.now) (λ taken. result.now ≡ taken) }
    {
        self.taken.as_slice()
    }

    /// How many bytes were taken, as long as it tells.
    pub fn count(&self) -> Option<usize>
        ensures { result ≡ option_map length (sink_taken self.now) }
    {
        if self.tells {
            Some(self.taken.len())
        } else {
            None
        }
    }

    /// The bytes taken and a piece fit into the room together.
    fn has_room_for(&self, piece: &[u8]) -> bool
        ensures { IsTrue result ↔ (length self.now.taken.items + length piece.now ≤ self.now.room) }
    {
        self.taken.len() <= self.room && piece.len() <= self.room - self.taken.len()
    }
}

impl Outer for MemSink {
    ghost use Rattle.qe_base.specs.MemSink.{sink_seen};

    ghost seen = { sink_seen };
}

impl Sink for MemSink {
    ghost use Rattle.qe_base.specs.Outside.{Writes};
    ghost use Rattle.qe_base.specs.Calls.{MakesCall};
    ghost use Rattle.qe_base.specs.MemSink.{KeepsOn, TellsWithin, sink_room, sink_writes, sink_seen};

    /// Takes the whole piece. One that goes past the room isn't kept, and no later one.
    fn write(&mut self, piece: &[u8]) -> Result<usize, Failed>
        ensures writes { Writes (sink_seen self.old) (sink_seen self.new) piece.now result }
        ensures whole { IfOk result (λ count. count ≡ length piece.now) }
        ensures tells { IfOk result (λ _. TellsWithin self.old self.new (length piece.now)) }
        ensures room { sink_room self.new ≡ sink_room self.old }
        ensures call { MakesCall (sink_writes self.old) (sink_writes self.new) (IsErr result) }
        ensures keeps { KeepsOn self.old self.new piece.now }
    {
        self.writes.begin()?;
        self.tells = self.tells
            && self.has_room_for(piece)
            && self.taken.extend_from_slice(piece).is_ok();
        Ok(piece.len())
    }
}
