//! What a case is, and why a line of one can't be read.
use qe_base::HostCall;
use qe_mem::FailAt;
use qe_text::Memory;
use std::alloc::{AllocError, AllocFailed};
use std::io;

/// Why the program stops before all cases were carried out.
#[derive(Clone, Copy, Debug, PartialEq, Eq)]
pub enum Stop {
    Memory,
    /// The folder or a file couldn't be read, or a line couldn't be printed.
    Outside,
}

impl From<Memory> for Stop {
    fn from(_: Memory) -> Stop {
        Stop::Memory
    }
}

impl From<AllocError> for Stop {
    fn from(_: AllocError) -> Stop {
        Stop::Memory
    }
}

impl<T: Drop> From<AllocFailed<T>> for Stop {
    fn from(_: AllocFailed<T>) -> Stop {
        Stop::Memory
    }
}

impl From<io::Error> for Stop {
    fn from(_: io::Error) -> Stop {
        Stop::Outside
    }
}

/// Why a line, or a case at its end, can't be read.
#[derive(Clone, Copy, Debug, PartialEq, Eq)]
pub enum Fault {
    Memory,
    /// The line is none of the forms.
    Form,
    /// A text behind a section that takes none, or before any section.
    Loose,
    /// The section was given before.
    Twice,
    /// No schema has this name.
    Name,
    /// A number is wanted.
    Number,
    NoSchema,
    NoOutput,
    NoMark,
    /// Rows are told behind a run alone, with the words that are usual.
    NoRun,
    NotUtf8,
    NoCase,
}

impl Fault {
    /// What is printed.
    pub fn text(self) -> &'static str {
        match self {
            Fault::Memory => "memory",
            Fault::Form => "a line of no known form",
            Fault::Loose => "a text that belongs to no section",
            Fault::Twice => "a section that was given before",
            Fault::Name => "no schema of this name",
            Fault::Number => "a number is wanted",
            Fault::NoSchema => "no schema is given",
            Fault::NoOutput => "no output is given",
            Fault::NoMark => "the schema has no mark",
            Fault::NoRun => "rows are told behind a run alone",
            Fault::NotUtf8 => "the file is not UTF-8",
            Fault::NoCase => "the file holds no case",
        }
    }
}

impl From<Memory> for Fault {
    fn from(_: Memory) -> Fault {
        Fault::Memory
    }
}

impl From<AllocError> for Fault {
    fn from(_: AllocError) -> Fault {
        Fault::Memory
    }
}

impl<T: Drop> From<AllocFailed<T>> for Fault {
    fn from(_: AllocFailed<T>) -> Fault {
        Fault::Memory
    }
}

/// What keeps the tables of a run.
#[derive(Clone, Copy, Debug, PartialEq, Eq)]
pub enum Keeper {
    /// The connector in memory.
    Memory,
    /// The connector over plain lists, which tells nothing.
    Plain,
}

impl Keeper {
    /// What a line about a case that differs over it begins with.
    pub fn text(self) -> &'static str {
        match self {
            Keeper::Memory => "",
            Keeper::Plain => "over the plain connector, ",
        }
    }
}

/// What comes of a case: the status, the output, and what the connector tells in the end.
#[derive(Drop)]
pub struct Outcome {
    pub status: u8,
    pub output: Vec<u8>,
    pub told: Vec<u8>,
}

/// What the connector is asked for in the end: the rows or the counter of the table of a name.
#[derive(Drop)]
pub struct Question {
    pub counter: bool,
    pub table: String,
}

/// The calls that are to fail, each by its number from 1 among the calls of its kind.
#[derive(Drop)]
pub struct Failing {
    pub reads: Vec<u64>,
    pub writes: Vec<u64>,
    pub host: Vec<(HostCall, u64)>,
    pub connector: Vec<FailAt>,
}

/// A case, with what must come of it. The words are given where they aren't those of a run.
#[derive(Drop)]
pub struct Case {
    pub schema: Vec<u8>,
    pub words: Option<Vec<String>>,
    pub input: Vec<u8>,
    pub failing: Failing,
    pub room: u64,
    pub questions: Vec<Question>,
    pub wanted: Outcome,
}

/// How many cases there were, and how many differ.
#[derive(Clone, Copy, Debug)]
pub struct Tally {
    pub cases: u64,
    pub differ: u64,
}
