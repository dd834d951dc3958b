//! What lies outside the engine: where bytes come from and go to, and files by name.
//!
//! Each object counts its faults, and says in contracts what it has left or has taken, where it
//! tells. Once it has stopped telling it doesn't tell again. What is seen of an object by several of these
//! traits is one record, so that each call says with it what else stays as it was.

mod calls;
mod marks;
mod mem_host;
mod mem_sink;
mod mem_source;

pub use mem_host::{HostCall, MemHost};
pub use mem_sink::MemSink;
pub use mem_source::MemSource;
use qe_text::Bytes;

/// A call of something outside failed.
#[derive(Clone, Copy, Debug, PartialEq, Eq)]
pub struct Failed;

/// Why a file wasn't fetched.
#[derive(Clone, Copy, Debug, PartialEq, Eq)]
pub enum FetchFault {
    /// There is no such file, or it can't be read.
    Failed,
    Memory,
}

/// Something outside, of which one record tells all that is seen.
pub trait Outer: Drop {
    ghost use Rattle.qe_base.specs.Outside.{Seen};

    /// All that is seen of it.
    ghost seen: { Self → Seen };
}

/// Where bytes come from.
pub trait Source: Outer {
    ghost use Rattle.qe_base.specs.Outside.{Reads};

    /// Reads into the front of a piece, and says how many bytes. At 0, for a piece that isn't empty,
    /// the input has ended.
    fn read(&mut self, into: &mut [u8]) -> Result<usize, Failed>
        ensures { Reads (Self.seen self.old) (Self.seen self.new) into.new result };
}

/// Where bytes go.
pub trait Sink: Outer {
    ghost use Rattle.qe_base.specs.Outside.{Writes};

    /// Takes the front of a piece, and says how many bytes: at least one of a piece that isn't empty.
    fn write(&mut self, piece: &[u8]) -> Result<usize, Failed>
        ensures { Writes (Self.seen self.old) (Self.seen self.new) piece.now result };
}

/// What a command has around it: input, output, and files by name.
pub trait Host: Source + Sink {
    ghost use Rattle.qe_base.specs.Outside.{Fetches};

    /// The first `most + 1` bytes of the file of a name, or all of a shorter one.
    fn fetch(&mut self, name: &str, most: usize) -> Result<Bytes, FetchFault>
        ensures { Fetches (Self.seen self.old) (Self.seen self.new) name.now most result };
}
