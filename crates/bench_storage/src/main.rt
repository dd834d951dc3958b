//! What the connector in memory costs, by calls of its own. The words say how many rows are created, by which
//! schema, and which work is then done how often; what is printed is how many rows came in all. There is no clock
//! in here: `bench/storage` runs the program with different words, and takes times and memory from outside.
#![tactic(auto)]

mod allowed;
mod filled;
mod made;
mod reads;
mod stop;
mod words;

use qe_mem::MemConnector;
use qe_view::Layout;
use std::alloc::Global;
use std::process::ExitCode;
use std::{env, io};
use stop::Stop;
use words::{Asked, Work};

/// The line for words that ask for nothing.
const USAGE: &str =
    "usage: plain|unique|foreign create|lines|id|unique|foreign|page|scan|loop ROWS TIMES";

/// The program's name and the words after it.
fn words_in(rt: &HostRuntime) -> io::Result<Vec<String>> {
    Ok(env::args(rt)?.collect(rt.alloc())?)
}

/// Does what is asked for, and counts the rows that came.
fn carry_out(alloc: Global, asked: Asked) -> Result<u64, Stop> {
    let schema = filled::schema_of(alloc, asked.shape)?;
    if asked.work == Work::Lines {
        return filled::read_lines(alloc, schema.get(), asked.rows);
    }
    let connector = MemConnector::new(alloc, &[])?;
    let tables = filled::fill(alloc, &schema, connector, asked.rows)?;
    let layout = Layout::of(alloc, schema.get())?;
    reads::count_rows(alloc, &layout, tables, asked)
}

fn main(rt: HostRuntime) -> ExitCode {
    let asked = match words_in(&rt) {
        Ok(words) => words::asked_by(words.as_slice()),
        Err(_) => None,
    };
    let Some(asked) = asked else {
        let _ = rt.println(USAGE);
        return ExitCode::from(2);
    };
    let printed = match carry_out(rt.alloc(), asked) {
        Ok(count) => rt.println(format_args!("{count} rows")),
        Err(stop) => {
            let _ = rt.println(stop.text());
            return ExitCode::from(1);
        }
    };
    match printed {
        Ok(()) => ExitCode::from(0),
        Err(_) => ExitCode::from(1),
    }
}
