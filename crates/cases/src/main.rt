//! Cases of the engine, which lie as texts in the folder that this program runs in. Each is carried out by
//! the program's top call over a host in memory, a run over each of two connectors, and what comes is
//! compared with what must come. A line is printed for each case that differs, and the counts at the end.
#![tactic(auto)]

mod block;
mod case;
mod compare;
mod draft;
mod files;
mod reading;
mod running;
mod told;

use case::{Fault, Stop, Tally};
use reading::Reading;
use std::process::ExitCode;

/// Reads and carries out all that lies in the folder.
fn carry_out_all(rt: &HostRuntime) -> Result<Tally, Stop> {
    let folder = files::files_in(rt, ".")?;
    let mut reading = Reading::new(rt.alloc());
    for file in folder.iter().filter(|file| file.is_shared) {
        reading.read_shared(rt, file)?;
    }
    for file in folder.iter().filter(|file| !file.is_shared) {
        reading.read_cases(rt, file)?;
    }
    Ok(reading.tally())
}

fn main(rt: HostRuntime) -> ExitCode {
    let done = match carry_out_all(&rt) {
        Ok(tally) => rt.println(format_args!("{} cases, {} differ", tally.cases, tally.differ)),
        Err(Stop::Memory) => {
            let _ = rt.println("memory");
            return ExitCode::from(1);
        }
        Err(Stop::Outside) => {
            let _ = rt.println("a file or the output failed");
            return ExitCode::from(1);
        }
    };
    match done {
        Ok(()) => ExitCode::from(0),
        Err(_) => ExitCode::from(1),
    }
}
