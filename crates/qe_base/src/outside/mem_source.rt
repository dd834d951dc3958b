//! Bytes in memory to read from.
ghost use Rattle.std.specs.Prelude.{◌≡◌, ◌+◌, ◌^◌, ◌<◌, ◌≤◌, Some, IfOk, IsErr, IfSome, min, length, take};

use crate::outside::calls::Calls;
use crate::outside::{Failed, Outer, Source};
use qe_text::{Bytes, Memory};
use sqlite_items::Items;
use std::alloc::Global;

/// Copies as many bytes as fit into the front of a piece, and says how many.
fn fill_front(into: &mut [u8], from: &[u8]) -> usize
    ensures count { result ≡ min (length from.now) (length into.new) }
    ensures front { take result into.new ≡ take result from.now }
{
    let count = from.len().min(into.len());
    into[..count].copy_from_slice(&from[..count]);
    count
}

/// Bytes in memory to read from. It tells what is left, and listed reads fail.
#[derive(Drop)]
pub struct MemSource {
    bytes: Bytes,
    given: usize,
    reads: Calls,
    ghost within: { given ≤ length bytes },
}

impl MemSource {
    ghost use Rattle.qe_base.specs.Calls.{no_calls};
    ghost use Rattle.qe_base.specs.MemSource.{source_given, source_left, source_reads};

    /// A source of these bytes. The numbers of the reads that are to fail count from 1.
    pub fn new(alloc: Global, bytes: &[u8], fail: &[u64]) -> Result<MemSource, Memory>
        ensures left { IfOk result (λ source. source_left source ≡ Some bytes.now) }
        ensures reads { IfOk result (λ source. source_reads source ≡ no_calls fail.now) }
    {
        let bytes = Bytes::from_slice(alloc, bytes)?;
        let failing = Items::from_slice(alloc, fail)?;
        Ok(MemSource {
            bytes,
            given: 0,
            reads: Calls::new(failing),
        })
    }

    /// How many bytes were given.
    pub fn given(&self) -> usize
        ensures { result ≡ source_given self.now }
    {
        self.given
    }

    /// The bytes that are left.
    fn left(&self) -> &[u8]
        ensures left { source_left self.now ≡ Some result.now }
        ensures fits { self.now.given + length result.now < 2 ^ 64 }
    {
        &self.bytes.as_slice()[self.given..]
    }
}

impl Outer for MemSource {
    ghost use Rattle.qe_base.specs.MemSource.{source_seen};

    ghost seen = { source_seen };
}

impl Source for MemSource {
    ghost use Rattle.qe_base.specs.Outside.{Reads};
    ghost use Rattle.qe_base.specs.Calls.{MakesCall};
    ghost use Rattle.qe_base.specs.MemSource.{source_bytes, source_left, source_reads, source_seen};

    /// Gives as many bytes as fit.
    fn read(&mut self, into: &mut [u8]) -> Result<usize, Failed>
        ensures reads { Reads (source_seen self.old) (source_seen self.new) into.new result }
        ensures full { IfOk result (λ count. IfSome (source_left self.old) (λ left. count ≡ min (length left) (length into.new))) }
        ensures call { MakesCall (source_reads self.old) (source_reads self.new) (IsErr result) }
        ensures same { source_bytes self.new ≡ source_bytes self.old }
    {
        self.reads.begin()?;
        let count = fill_front(into, self.left());
        self.given += count;
        Ok(count)
    }
}
