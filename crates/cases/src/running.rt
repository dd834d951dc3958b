//! Carries a case out, by the program's top call over a host in memory and one of two connectors.
ghost use Rattle.std.specs.Prelude.{◌≡◌, None, IfOk, ◌∷◌, [], map, string_bytes, codes};
ghost use Rattle.qe_base.specs.MemHost.{host_files};

use crate::case::{Case, Keeper, Outcome};
use crate::told::told_of;
use qe_base::{Bytes, Items, MemHost, MemSink, MemSource, Memory, Text};
use qe_cli::{Ended, command};
use qe_mem::MemConnector;
use qe_plain::PlainConnector;
use qe_view::Connector;
use std::alloc::{AllocError, Global};

/// The connector of a run.
type Kept = Box<dyn Connector + Send>;

/// A host whose one file is the schema.
fn host_of(alloc: Global, case: &Case) -> Result<MemHost, Memory>
    ensures { IfOk result (λ host. host_files host ≡ (codes "schema", case.now.schema.items) ∷ []) }
{
    let mut files = Items::new(alloc);
    let text = Bytes::from_slice(alloc, case.schema.as_slice())?;
    files.push((Text::from_str(alloc, "schema")?, text))?;
    let failing = &case.failing;
    let source = MemSource::new(alloc, case.input.as_slice(), failing.reads.as_slice())?;
    let sink = MemSink::new(alloc, case.room, failing.writes.as_slice())?;
    MemHost::new(alloc, files, source, sink, failing.host.as_slice())
}

/// The words of a run over the schema.
fn run_words(alloc: Global) -> Result<Vec<String>, AllocError>
    ensures { IfOk result (λ words. map string_bytes words.items ≡ codes "engine" ∷ codes "run" ∷ codes "schema" ∷ []) }
{
    let mut words = Vec::new(alloc);
    words.push(String::from_str(alloc, "engine")?)?;
    words.push(String::from_str(alloc, "run")?)?;
    words.push(String::from_str(alloc, "schema")?)?;
    Ok(words)
}

/// Carries out a case by these words over a connector that isn't attached.
fn outcome_by(alloc: Global, case: &Case, words: &[String], memory: Kept) -> Result<Outcome, Memory>
    requires { (⟦<Kept as Connector>⟧.seen memory).attached ≡ None }
{
    let mut host = host_of(alloc, case)?;
    let ended = command(alloc, words, &mut host, memory);
    Ok(Outcome {
        status: ended.status,
        output: Vec::from_slice(alloc, host.taken())?,
        told: Vec::new(alloc),
    })
}

/// Carries out a run over a connector that isn't attached, and asks it in the end what the case asks.
fn outcome_of_run(alloc: Global, case: &Case, memory: Kept) -> Result<Outcome, Memory>
    requires { (⟦<Kept as Connector>⟧.seen memory).attached ≡ None }
{
    let mut host = host_of(alloc, case)?;
    let words = run_words(alloc)?;
    let Ended {
        status,
        memory: back,
    } = command(alloc, words.as_slice(), &mut host, memory);
    let told = told_of(alloc, case, status, back)?;
    Ok(Outcome {
        status,
        output: Vec::from_slice(alloc, host.taken())?,
        told,
    })
}

/// What comes of a case over a connector that isn't attached.
fn outcome_over(alloc: Global, case: &Case, memory: Kept) -> Result<Outcome, Memory>
    requires { (⟦<Kept as Connector>⟧.seen memory).attached ≡ None }
{
    match &case.words {
        Some(words) => outcome_by(alloc, case, words.as_slice(), memory),
        None => outcome_of_run(alloc, case, memory),
    }
}

/// What comes of a case over the connector in memory.
fn outcome_in_memory(alloc: Global, case: &Case) -> Result<Outcome, Memory> {
    let tables = MemConnector::new(alloc, case.failing.connector.as_slice())?;
    let memory = Box::new(alloc, tables)?;
    outcome_over(alloc, case, memory)
}

/// What comes of a case over the plain connector.
fn outcome_in_lists(alloc: Global, case: &Case) -> Result<Outcome, Memory> {
    let tables = PlainConnector::new(alloc, case.failing.connector.as_slice())?;
    let memory = Box::new(alloc, tables)?;
    outcome_over(alloc, case, memory)
}

/// What comes of a case over a connector.
pub fn outcome_of(alloc: Global, case: &Case, keeper: Keeper) -> Result<Outcome, Memory> {
    match keeper {
        Keeper::Memory => outcome_in_memory(alloc, case),
        Keeper::Plain => outcome_in_lists(alloc, case),
    }
}
