//! The system's own input, output and files.
ghost use Rattle.std.specs.Prelude.{◌≡◌, ◌≢◌};

use qe_base::{Bytes, Failed, FetchFault, Host, Outer, Sink, Source};
use std::fs::File;
use std::io::{self, ErrorKind, Read, Write};

/// Standard input, standard output, and the files of the system. It tells nothing of what an input,
/// an output or a file holds, and each of its calls may fail.
#[derive(Drop)]
pub struct StdHost {
    rt: HostRuntime,
    read_faults: u64,
    write_faults: u64,
    fetch_faults: u64,
}

impl StdHost {
    ghost use Rattle.qe_cli.specs.RealHost.{host_seen, nothing_failed};

    /// No call has failed yet.
    pub fn new(rt: HostRuntime) -> StdHost
        ensures { host_seen result ≡ nothing_failed }
    {
        StdHost {
            rt,
            read_faults: 0,
            write_faults: 0,
            fetch_faults: 0,
        }
    }
}

impl Outer for StdHost {
    ghost use Rattle.qe_cli.specs.RealHost.{host_seen};

    ghost seen = { host_seen };
}

impl Source for StdHost {
    /// Reads once, and nothing ahead, so it has a line of a terminal as soon as that is typed. An
    /// interrupted read is a fault.
    fn read(&mut self, into: &mut [u8]) -> Result<usize, Failed> {
        match self.rt.stdin().read(into) {
            Ok(count) => Ok(count),
            Err(_) => {
                self.read_faults = self.read_faults.saturating_add(1);
                Err(Failed)
            }
        }
    }
}

impl Sink for StdHost {
    /// Writes once, past no buffer, so what it takes has left. An interrupted write, and one that
    /// takes nothing of a piece that isn't empty, is a fault.
    fn write(&mut self, piece: &[u8]) -> Result<usize, Failed> {
        match self.rt.stdout().write(piece) {
            Ok(count) if count > 0 || piece.is_empty() => Ok(count),
            _ => {
                self.write_faults = self.write_faults.saturating_add(1);
                Err(Failed)
            }
        }
    }
}

/// The first `most + 1` bytes of a file, or all of a shorter one.
fn front_of(rt: &HostRuntime, name: &str, most: usize) -> io::Result<Vec<u8>> {
    let limit = (most as u64).saturating_add(1);
    let mut bytes = Vec::new(rt.alloc());
    File::open(rt, name)?.take(limit).read_to_end(&mut bytes)?;
    Ok(bytes)
}

impl Host for StdHost {
    /// Opens the file, reads its front and closes it.
    fn fetch(&mut self, name: &str, most: usize) -> Result<Bytes, FetchFault> {
        match front_of(&self.rt, name, most) {
            Ok(bytes) => Ok(Bytes::from_vec(bytes)),
            Err(error) if error.kind() == ErrorKind::OutOfMemory => Err(FetchFault::Memory),
            Err(_) => {
                self.fetch_faults = self.fetch_faults.saturating_add(1);
                Err(FetchFault::Failed)
            }
        }
    }
}

/// Says why no command is carried out, and gives the status: memory is short, or the words are no
/// texts.
pub fn refuse_words(rt: &HostRuntime, why: ErrorKind) -> u8
    ensures memory { why ≡ ErrorKind.OutOfMemory → result ≡ 5 }
    ensures usage { why ≢ ErrorKind.OutOfMemory → result ≡ 2 }
{
    let (line, status) = match why {
        ErrorKind::OutOfMemory => ("memory", 5),
        _ => ("usage", 2),
    };
    let _ = rt.println(line);
    status
}
