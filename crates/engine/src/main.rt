//! The engine as a program: its words are a command, carried out over the system's input, output
//! and files.
#![tactic(auto)]

use qe_cli::{StdHost, command, refuse_words};
use qe_mem::MemConnector;
use std::env;
use std::io::{self, ErrorKind};
use std::process::ExitCode;

/// The program's name and the words after it.
fn words(rt: &HostRuntime) -> io::Result<Vec<String>> {
    Ok(env::args(rt)?.collect(rt.alloc())?)
}

fn main(rt: HostRuntime) -> ExitCode {
    let words = match words(&rt) {
        Ok(words) => words,
        Err(error) => return ExitCode::from(refuse_words(&rt, error.kind())),
    };
    let Ok(tables) = MemConnector::new(rt.alloc(), &[]) else {
        return ExitCode::from(refuse_words(&rt, ErrorKind::OutOfMemory));
    };
    let Ok(memory) = Box::new(rt.alloc(), tables) else {
        return ExitCode::from(refuse_words(&rt, ErrorKind::OutOfMemory));
    };
    let ended = command(rt.alloc(), words.as_slice(), &mut StdHost::new(rt), memory);
    ExitCode::from(ended.status)
}
