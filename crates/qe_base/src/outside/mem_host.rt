//! Files, a source and a sink in memory.
ghost use Rattle.std.specs.Prelude.{◌≡◌, ◌+◌, ◌≤◌, ◌↔◌, [], Some, IfOk, IfSome, IsSome, IsErr, IsErrOf, true, length, min, take};
ghost use Rattle.std.specs.Option.{option_copied};
ghost use Rattle.qe_base.specs.Marks.{are_within};
ghost use Rattle.qe_base.specs.Outside.{Reads, Writes, Fetches, file_named};

use crate::outside::calls::Calls;
use crate::outside::marks::{Mark, with_mark, with_name};
use crate::outside::mem_sink::MemSink;
use crate::outside::mem_source::MemSource;
use crate::outside::{Failed, FetchFault, Host, Outer, Sink, Source};
use qe_text::{Bytes, Memory, Text};
use sqlite_items::Items;
use std::alloc::Global;

/// A kind of call that a host in memory counts.
#[derive(Clone, Copy)]
pub enum HostCall {
    /// `Host::fetch`.
    Fetch,
}

/// The content of the first file of a name.
fn content_of<'a>(files: &'a [(Text, Bytes)], name: &str) -> Option<&'a Bytes>
    ensures { option_copied result ≡ file_named name.now files.now }
{
    match files.iter().find(|file| file.0.is_same(name)) {
        Some(file) => Some(&file.1),
        None => None,
    }
}

/// The first `most + 1` bytes, or all where there are fewer.
fn front(content: &[u8], most: usize) -> &[u8]
    ensures { result.now ≡ take (most + 1) content.now }
{
    if content.len() <= most {
        content
    } else {
        &content[..most + 1]
    }
}

/// Files, a source and a sink in memory. It tells its files, and listed fetches fail. It notes what each read begins
/// with, until the sink doesn't tell or memory is short for that, and the names that are asked for, until memory is.
#[derive(Drop)]
pub struct MemHost {
    alloc: Global,
    files: Items<(Text, Bytes)>,
    source: MemSource,
    sink: MemSink,
    fetches: Calls,
    turns: Option<Items<Mark>>,
    asked: Option<Items<Text>>,
    ghost noted: { are_within (length sink.taken.items) turns ≡ true },
}

impl MemHost {
    ghost use Rattle.qe_base.specs.Calls.{no_calls};
    ghost use Rattle.qe_base.specs.MemSink.{sink_taken};
    ghost use Rattle.qe_base.specs.MemHost.{fetches_of, host_asked, host_files, host_source, host_sink, host_fetches, host_turns};

    /// The numbers of the fetches in a list of calls.
    fn fetch_numbers(alloc: Global, calls: &[(HostCall, u64)]) -> Result<Items<u64>, Memory>
        ensures { IfOk result (λ numbers. numbers ≡ fetches_of calls.now) }
    {
        let mut numbers = Items::new(alloc);
        for call in calls {
            match call.0 {
                HostCall::Fetch => numbers.push(call.1)?,
            }
        }
        Ok(numbers)
    }

    /// A host of these files, of which the first of each name counts. The numbers of the calls that
    /// are to fail count from 1 within each kind.
    pub fn new(
        alloc: Global,
        files: Items<(Text, Bytes)>,
        source: MemSource,
        sink: MemSink,
        fail: &[(HostCall, u64)],
    ) -> Result<MemHost, Memory>
        ensures files { IfOk result (λ host. host_files host ≡ files) }
        ensures source { IfOk result (λ host. host_source host ≡ source) }
        ensures sink { IfOk result (λ host. host_sink host ≡ sink) }
        ensures fetches { IfOk result (λ host. host_fetches host ≡ no_calls (fetches_of fail.now)) }
        ensures turns { IfOk result (λ host. host_turns host ≡ Some []) }
        ensures asked { IfOk result (λ host. host_asked host ≡ Some []) }
    {
        let failing = MemHost::fetch_numbers(alloc, fail)?;
        Ok(MemHost {
            alloc,
            files,
            source,
            sink,
            fetches: Calls::new(failing),
            turns: Some(Items::new(alloc)),
            asked: Some(Items::new(alloc)),
        })
    }

    /// The bytes that were written, as long as it tells them.
    pub fn taken(&self) -> &[u8]
        ensures { IfSome (sink_taken (host_sink self.now)) (λ taken. result.now ≡ taken) }
    {
        self.sink.taken()
    }
}

impl Outer for MemHost {
    ghost use Rattle.qe_base.specs.MemHost.{host_seen};

    ghost seen = { host_seen };
}

impl Source for MemHost {
    ghost use Rattle.qe_base.specs.Calls.{MakesCall};
    ghost use Rattle.qe_base.specs.MemSource.{source_left, source_reads};
    ghost use Rattle.qe_base.specs.MemHost.{host_seen, host_source};

    /// As its source does. Whether it is noted or not, the read is made.
    fn read(&mut self, into: &mut [u8]) -> Result<usize, Failed>
        ensures reads { Reads (host_seen self.old) (host_seen self.new) into.new result }
        ensures full { IfOk result (λ count. IfSome (source_left (host_source self.old)) (λ left. count ≡ min (length left) (length into.new))) }
        ensures call { MakesCall (source_reads (host_source self.old)) (source_reads (host_source self.new)) (IsErr result) }
    {
        self.turns = with_mark(self.turns.take(), &self.source, &self.sink);
        self.source.read(into)
    }
}

impl Sink for MemHost {
    ghost use Rattle.qe_base.specs.Calls.{MakesCall};
    ghost use Rattle.qe_base.specs.MemSink.{TellsWithin, sink_room, sink_writes};
    ghost use Rattle.qe_base.specs.MemHost.{host_seen, host_sink};

    /// As its sink does.
    fn write(&mut self, piece: &[u8]) -> Result<usize, Failed>
        ensures writes { Writes (host_seen self.old) (host_seen self.new) piece.now result }
        ensures whole { IfOk result (λ count. count ≡ length piece.now) }
        ensures tells { IfOk result (λ _. TellsWithin (host_sink self.old) (host_sink self.new) (length piece.now)) }
        ensures room { sink_room (host_sink self.new) ≡ sink_room (host_sink self.old) }
        ensures call { MakesCall (sink_writes (host_sink self.old)) (sink_writes (host_sink self.new)) (IsErr result) }
    {
        self.sink.write(piece)
    }
}

impl Host for MemHost {
    ghost use Rattle.qe_base.specs.MemHost.{host_seen, host_fetches, refuses, after_fetch};

    /// Fails where the call is listed, and where there is no such file. Whether it is noted or not, the fetch is made.
    fn fetch(&mut self, name: &str, most: usize) -> Result<Bytes, FetchFault>
        ensures fetches { Fetches (host_seen self.old) (host_seen self.new) name.now most result }
        ensures refused { IsErrOf result FetchFault.Failed ↔ (refuses self.old name.now ≡ true) }
        ensures counted { host_fetches self.new ≡ after_fetch self.old name.now }
    {
        self.asked = with_name(self.alloc, self.asked.take(), name);
        if self.fetches.begin().is_err() {
            return Err(FetchFault::Failed);
        }
        match content_of(self.files.as_slice(), name) {
            Some(content) => match Bytes::from_slice(self.alloc, front(content.as_slice(), most)) {
                Ok(bytes) => Ok(bytes),
                Err(Memory) => Err(FetchFault::Memory),
            },
            None => {
                self.fetches.count_fault();
                Err(FetchFault::Failed)
            }
        }
    }
}
