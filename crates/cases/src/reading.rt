//! From files to cases, each of which is carried out as soon as it was read.
use crate::block;
use crate::case::{Case, Fault, Keeper, Stop, Tally};
use crate::compare::{describe, first_difference};
use crate::draft::{Draft, Named, cut};
use crate::files::CaseFile;
use crate::running::outcome_of;
use std::alloc::Global;

/// The case that is being read: the number of the line of its title, its title, and its first line that
/// can't be read.
#[derive(Drop)]
struct Current {
    line: u64,
    title: String,
    draft: Draft,
    fault: Option<(u64, Fault)>,
}

/// What was read so far.
#[derive(Drop)]
pub struct Reading {
    alloc: Global,
    shared: Vec<Named>,
    tally: Tally,
}

/// A line that says nothing: blank, or a remark.
fn says_nothing(line: &str) -> bool {
    line.is_empty() || line.starts_with("//")
}

/// Prints that a case differs, or that it can't be read.
fn print_differing(
    rt: &HostRuntime,
    file: &str,
    line: u64,
    title: &str,
    what: &str,
) -> Result<(), Stop> {
    println!(rt; "{file}:{line}: {title}: {what}")?;
    Ok(())
}

impl Reading {
    pub fn new(alloc: Global) -> Reading {
        Reading {
            alloc,
            shared: Vec::new(alloc),
            tally: Tally {
                cases: 0,
                differ: 0,
            },
        }
    }

    pub fn tally(&self) -> Tally {
        self.tally
    }

    /// One case more, which differs or doesn't.
    fn count(&mut self, differs: bool) {
        self.tally.cases = self.tally.cases.saturating_add(1);
        if differs {
            self.tally.differ = self.tally.differ.saturating_add(1);
        }
    }

    /// Counts and prints what can't be read.
    fn refuse(
        &mut self,
        rt: &HostRuntime,
        file: &str,
        line: u64,
        title: &str,
        fault: Fault,
    ) -> Result<(), Stop> {
        if fault == Fault::Memory {
            return Err(Stop::Memory);
        }
        self.count(true);
        print_differing(rt, file, line, title, fault.text())
    }

    /// Carries a case out over a connector, and says how it differs, if it does.
    fn difference(&self, case: &Case, keeper: Keeper) -> Result<Option<String>, Stop> {
        let got = outcome_of(self.alloc, case, keeper)?;
        match first_difference(&case.wanted, &got) {
            None => Ok(None),
            Some(found) => {
                let what = describe(self.alloc, found, &case.wanted, &got)?;
                let over = keeper.text();
                Ok(Some(format!(in self.alloc; "{over}{what}")?))
            }
        }
    }

    /// Carries a case out over both connectors, and says how it differs first, if it does. But for runs the
    /// connector is out of play.
    fn differs(&self, case: &Case) -> Result<Option<String>, Stop> {
        let found = self.difference(case, Keeper::Memory)?;
        if found.is_some() || case.words.is_some() {
            return Ok(found);
        }
        self.difference(case, Keeper::Plain)
    }

    /// Carries a case out, and prints how it differs.
    fn judge(
        &mut self,
        rt: &HostRuntime,
        file: &str,
        line: u64,
        title: &str,
        case: &Case,
    ) -> Result<(), Stop> {
        let found = self.differs(case)?;
        self.count(found.is_some());
        match found {
            None => Ok(()),
            Some(what) => print_differing(rt, file, line, title, what.as_str()),
        }
    }

    /// Ends the case that was read.
    fn end(&mut self, rt: &HostRuntime, file: &str, current: Current) -> Result<(), Stop> {
        let Current {
            line,
            title,
            draft,
            fault,
        } = current;
        if let Some((at, fault)) = fault {
            return self.refuse(rt, file, at, title.as_str(), fault);
        }
        match draft.finish() {
            Ok(case) => self.judge(rt, file, line, title.as_str(), &case),
            Err(fault) => self.refuse(rt, file, line, title.as_str(), fault),
        }
    }

    /// Ends the case that was read, if any, and begins the one of a title.
    fn begin(
        &mut self,
        rt: &HostRuntime,
        file: &str,
        before: Option<Current>,
        line: u64,
        title: &str,
    ) -> Result<Current, Stop> {
        if let Some(current) = before {
            self.end(rt, file, current)?;
        }
        Ok(Current {
            line,
            title: String::from_str(self.alloc, title)?,
            draft: Draft::new(self.alloc),
            fault: None,
        })
    }

    /// Takes a line that is no title. Of a case only its first wrong line is remembered.
    fn take(
        &mut self,
        rt: &HostRuntime,
        file: &str,
        current: Option<Current>,
        number: u64,
        line: &str,
    ) -> Result<Option<Current>, Stop> {
        let Some(mut current) = current else {
            self.refuse(rt, file, number, "before the first case", Fault::Loose)?;
            return Ok(None);
        };
        if current.fault.is_none() {
            if let Err(fault) = current.draft.take(line, self.shared.as_slice()) {
                current.fault = Some((number, fault));
            }
        }
        Ok(Some(current))
    }

    /// Reads the lines of a file with cases.
    fn read_lines(&mut self, rt: &HostRuntime, file: &str, text: &str) -> Result<(), Stop> {
        let mut number = 0_u64;
        let mut current = None;
        for line in text.split('\n') {
            number = number.saturating_add(1);
            if says_nothing(line) {
                continue;
            }
            current = match line.strip_prefix("# ") {
                Some(title) => Some(self.begin(rt, file, current, number, title)?),
                None => self.take(rt, file, current, number, line)?,
            };
        }
        match current {
            Some(current) => self.end(rt, file, current),
            None => self.refuse(rt, file, 1, "the file", Fault::NoCase),
        }
    }

    /// Reads and carries out the cases of a file.
    pub fn read_cases(&mut self, rt: &HostRuntime, file: &CaseFile) -> Result<(), Stop> {
        let name = file.name.as_str();
        match str::from_utf8(file.bytes.as_slice()) {
            Ok(text) => self.read_lines(rt, name, text),
            Err(_) => self.refuse(rt, name, 1, "the file", Fault::NotUtf8),
        }
    }

    /// Takes a line of a file with schemas: a name, or a line of the text of the last name.
    fn take_shared(&mut self, line: &str) -> Result<(), Fault> {
        let alloc = self.alloc;
        if block::is_body(line) {
            return match self.shared.last_mut() {
                Some(named) => block::push_line(alloc, &mut named.text, line),
                None => Err(Fault::Loose),
            };
        }
        match cut(line) {
            ("schema", name) => {
                let name = String::from_str(alloc, name)?;
                let text = Vec::new(alloc);
                self.shared.push(Named { name, text })?;
                Ok(())
            }
            _ => Err(Fault::Form),
        }
    }

    /// Reads a file with schemas.
    fn read_schemas(&mut self, rt: &HostRuntime, file: &str, text: &str) -> Result<(), Stop> {
        let mut number = 0_u64;
        for line in text.split('\n') {
            number = number.saturating_add(1);
            if says_nothing(line) {
                continue;
            }
            if let Err(fault) = self.take_shared(line) {
                self.refuse(rt, file, number, "a schema", fault)?;
            }
        }
        Ok(())
    }

    /// Reads the schemas of a file.
    pub fn read_shared(&mut self, rt: &HostRuntime, file: &CaseFile) -> Result<(), Stop> {
        let name = file.name.as_str();
        match str::from_utf8(file.bytes.as_slice()) {
            Ok(text) => self.read_schemas(rt, name, text),
            Err(_) => self.refuse(rt, name, 1, "the file", Fault::NotUtf8),
        }
    }
}
