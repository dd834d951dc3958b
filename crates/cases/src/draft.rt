//! A case while its lines are read.
use crate::block;
use crate::case::{Case, Failing, Fault, Outcome, Question};
use qe_base::HostCall;
use qe_mem::{CallKind, FailAt};
use std::alloc::{AllocError, Global};

/// The front of a schema's text whose models alone are given.
const HEAD: &str = "datasource d {\nprovider = \"sqlite\"\nrelationMode = \"prisma\"\n}\n";

/// The mark of the place at which a schema's text is refused.
const MARK: [u8; 2] = [b'^', b'^'];

/// How many bytes of output are kept, where a case doesn't say.
const ROOM: u64 = 65_536;

/// A schema's text, by a name that cases give.
#[derive(Drop)]
pub struct Named {
    pub name: String,
    pub text: Vec<u8>,
}

/// The text of a section, and whether the section was given.
#[derive(Drop)]
struct Section {
    given: bool,
    text: Vec<u8>,
}

impl Section {
    fn new(alloc: Global) -> Section {
        Section {
            given: false,
            text: Vec::new(alloc),
        }
    }

    /// Begins the section, which was not given before.
    fn begin(&mut self) -> Result<(), Fault> {
        if self.given {
            return Err(Fault::Twice);
        }
        self.given = true;
        Ok(())
    }
}

/// Where the lines of a text go.
#[derive(Clone, Copy, Debug)]
enum Target {
    Nothing,
    Schema,
    Input,
    Output,
    Told,
}

/// A case as far as its lines were read.
#[derive(Drop)]
pub struct Draft {
    alloc: Global,
    target: Target,
    schema: Section,
    input: Section,
    output: Section,
    told: Section,
    words: Option<Vec<String>>,
    refused: Option<String>,
    status: u8,
    failing: Failing,
    room: u64,
    questions: Vec<Question>,
}

/// The words of a line, between blanks.
fn words_of(alloc: Global, rest: &str) -> Result<Vec<String>, AllocError> {
    let mut words = Vec::new(alloc);
    for word in rest.split(' ') {
        if !word.is_empty() {
            words.push(String::from_str(alloc, word)?)?;
        }
    }
    Ok(words)
}

/// The words of a command over the schema.
fn usual_words(alloc: Global, command: &str) -> Result<Vec<String>, AllocError> {
    let mut words = Vec::new(alloc);
    for word in ["engine", command, "schema"] {
        words.push(String::from_str(alloc, word)?)?;
    }
    Ok(words)
}

fn number_in(text: &str) -> Result<u64, Fault> {
    match text.parse::<u64>() {
        Ok(number) => Ok(number),
        Err(_) => Err(Fault::Number),
    }
}

/// The first word of a line, and what stands behind the blank after it.
pub fn cut(line: &str) -> (&str, &str) {
    line.split_once(' ').unwrap_or((line, ""))
}

/// The place of the mark in a text, and the text without it.
fn without_mark(alloc: Global, text: &[u8]) -> Result<(usize, Vec<u8>), Fault> {
    for (at, pair) in text.windows(2).enumerate() {
        if pair == MARK.as_slice() {
            let mut plain = Vec::from_slice(alloc, text.get(..at).unwrap_or(&[]))?;
            plain.extend_from_slice(text.get(at..).unwrap_or(&[]).get(2..).unwrap_or(&[]))?;
            return Ok((at, plain));
        }
    }
    Err(Fault::NoMark)
}

/// The line of a text that is refused by a rule at a place.
fn refusal(alloc: Global, rule: &str, at: usize) -> Result<Vec<u8>, AllocError> {
    let line = format!(in alloc; "P1012 {rule} at {at}\n")?;
    Vec::from_slice(alloc, line.as_str().as_bytes())
}

/// Takes the text of a schema as it is, or without the mark where it is to be refused, with what is then
/// printed.
fn schema_and_output(
    alloc: Global,
    schema: Vec<u8>,
    output: Vec<u8>,
    refused: Option<String>,
) -> Result<(Vec<u8>, Vec<u8>), Fault> {
    match refused {
        None => Ok((schema, output)),
        Some(rule) => {
            let (at, plain) = without_mark(alloc, schema.as_slice())?;
            let line = refusal(alloc, rule.as_str(), at)?;
            Ok((plain, line))
        }
    }
}

impl Draft {
    /// Nothing of a case was read yet.
    pub fn new(alloc: Global) -> Draft {
        Draft {
            alloc,
            target: Target::Nothing,
            schema: Section::new(alloc),
            input: Section::new(alloc),
            output: Section::new(alloc),
            told: Section::new(alloc),
            words: None,
            refused: None,
            status: 0,
            failing: Failing {
                reads: Vec::new(alloc),
                writes: Vec::new(alloc),
                host: Vec::new(alloc),
                connector: Vec::new(alloc),
            },
            room: ROOM,
            questions: Vec::new(alloc),
        }
    }

    /// Takes a line of a text.
    fn take_text(&mut self, line: &str) -> Result<(), Fault> {
        let alloc = self.alloc;
        match self.target {
            Target::Nothing => Err(Fault::Loose),
            Target::Schema => block::push_line(alloc, &mut self.schema.text, line),
            Target::Input => block::push_line(alloc, &mut self.input.text, line),
            Target::Output => block::push_line(alloc, &mut self.output.text, line),
            Target::Told => block::push_line(alloc, &mut self.told.text, line),
        }
    }

    /// Takes the schema of a name, or the lines to come.
    fn take_schema(&mut self, name: &str, shared: &[Named]) -> Result<(), Fault> {
        self.schema.begin()?;
        if name.is_empty() {
            self.target = Target::Schema;
            return Ok(());
        }
        for named in shared {
            if named.name.as_str() == name {
                self.schema.text.extend_from_slice(named.text.as_slice())?;
                return Ok(());
            }
        }
        Err(Fault::Name)
    }

    /// Takes the models to come, behind the usual head.
    fn take_models(&mut self) -> Result<(), Fault> {
        self.schema.begin()?;
        self.schema.text.extend_from_slice(HEAD.as_bytes())?;
        self.target = Target::Schema;
        Ok(())
    }

    fn take_words(&mut self, words: Vec<String>) -> Result<(), Fault> {
        if self.words.is_some() {
            return Err(Fault::Twice);
        }
        self.words = Some(words);
        Ok(())
    }

    /// The text is validated, and accepted.
    fn take_accepted(&mut self) -> Result<(), Fault> {
        let words = usual_words(self.alloc, "validate")?;
        self.take_words(words)?;
        self.output.begin()?;
        self.output.text.extend_from_slice(b"ok\n")?;
        Ok(())
    }

    /// The text is validated, and refused by a rule at its mark.
    fn take_refused(&mut self, rule: &str) -> Result<(), Fault> {
        if rule.is_empty() {
            return Err(Fault::Form);
        }
        let words = usual_words(self.alloc, "validate")?;
        self.take_words(words)?;
        self.output.begin()?;
        self.status = 3;
        self.refused = Some(String::from_str(self.alloc, rule)?);
        Ok(())
    }

    /// The call of a kind and of a number is to fail.
    fn take_failing(&mut self, rest: &str) -> Result<(), Fault> {
        let (kind, number) = cut(rest);
        let number = number_in(number)?;
        let call = match kind {
            "read" => {
                self.failing.reads.push(number)?;
                return Ok(());
            }
            "write" => {
                self.failing.writes.push(number)?;
                return Ok(());
            }
            "fetch" => {
                self.failing.host.push((HostCall::Fetch, number))?;
                return Ok(());
            }
            "attach" => CallKind::Attach,
            "load" => CallKind::Load,
            "scan" => CallKind::Scan,
            "page" => CallKind::Page,
            "last" => CallKind::Last,
            "apply" => CallKind::Apply,
            _ => return Err(Fault::Form),
        };
        self.failing.connector.push(FailAt { call, number })?;
        Ok(())
    }

    /// The rows of a table are told, in the lines to come.
    fn take_rows(&mut self, table: &str) -> Result<(), Fault> {
        let table = String::from_str(self.alloc, table)?;
        let head = format!(in self.alloc; "rows {table}\n")?;
        self.told.text.extend_from_slice(head.as_str().as_bytes())?;
        self.questions.push(Question {
            counter: false,
            table,
        })?;
        self.target = Target::Told;
        Ok(())
    }

    /// The counter of a table is told.
    fn take_counter(&mut self, rest: &str) -> Result<(), Fault> {
        let (table, number) = cut(rest);
        let number = number_in(number)?;
        let table = String::from_str(self.alloc, table)?;
        let line = format!(in self.alloc; "counter {table} {number}\n")?;
        self.told.text.extend_from_slice(line.as_str().as_bytes())?;
        self.questions.push(Question {
            counter: true,
            table,
        })?;
        Ok(())
    }

    fn take_status(&mut self, rest: &str) -> Result<(), Fault> {
        match rest.parse::<u8>() {
            Ok(status) => {
                self.status = status;
                Ok(())
            }
            Err(_) => Err(Fault::Number),
        }
    }

    /// Takes the first line of a section.
    fn take_section(&mut self, line: &str, shared: &[Named]) -> Result<(), Fault> {
        let (word, rest) = cut(line);
        match word {
            "schema" => self.take_schema(rest, shared),
            "words" => {
                let words = words_of(self.alloc, rest)?;
                self.take_words(words)
            }
            "fail" => self.take_failing(rest),
            "rows" => self.take_rows(rest),
            "counter" => self.take_counter(rest),
            "refused" => self.take_refused(rest),
            "status" => self.take_status(rest),
            "room" => {
                self.room = number_in(rest)?;
                Ok(())
            }
            _ => self.take_bare(line),
        }
    }

    /// Takes the first line of a section that is a word alone.
    fn take_bare(&mut self, line: &str) -> Result<(), Fault> {
        match line {
            "models" => self.take_models(),
            "accepted" => self.take_accepted(),
            "input" => {
                self.target = Target::Input;
                self.input.begin()
            }
            "output" => {
                self.target = Target::Output;
                self.output.begin()
            }
            _ => Err(Fault::Form),
        }
    }

    /// Takes a line of the case.
    pub fn take(&mut self, line: &str, shared: &[Named]) -> Result<(), Fault> {
        if block::is_body(line) {
            return self.take_text(line);
        }
        self.target = Target::Nothing;
        self.take_section(line, shared)
    }

    /// The case, where all that it needs was given.
    pub fn finish(self) -> Result<Case, Fault> {
        if !self.schema.given {
            return Err(Fault::NoSchema);
        }
        if !self.output.given {
            return Err(Fault::NoOutput);
        }
        if self.words.is_some() && !self.questions.is_empty() {
            return Err(Fault::NoRun);
        }
        let (schema, output) = schema_and_output(
            self.alloc,
            self.schema.text,
            self.output.text,
            self.refused,
        )?;
        Ok(Case {
            schema,
            words: self.words,
            input: self.input.text,
            failing: self.failing,
            room: self.room,
            questions: self.questions,
            wanted: Outcome {
                status: self.status,
                output,
                told: self.told.text,
            },
        })
    }
}
