//! The commands of the engine.
ghost use Rattle.std.specs.Prelude.{◌≡◌, ◌↔◌, None, IfErr, IfOk, map, string_bytes};
ghost use Rattle.qe_base.specs.Outside.{IsSteady};
ghost use Rattle.qe_cli.specs.Asked.{ReadsAlone, command_of};
ghost use Rattle.qe_cli.specs.Command.{AsksAtMost, Comes, EndsOver, SchemaComes};
ghost use Rattle.qe_cli.specs.Ends.{EndsFor};
ghost use Rattle.qe_cli.specs.Refused.{HasSchema, Unread};
ghost use Rattle.qe_cli.specs.Says.{AcceptsSchema, AnswersAtOnce, AnswersOver, FaultsOf, HasFault, IsApart, IsCalm, IsLong, IsShutOver, IsUnread, LaysOut, Opens, OpensSchema, RefusesText, SaysWhy, Validates};
ghost use Rattle.qe_node.specs.Port.{OnlyMoved};

use crate::print::{print_end, say, say_layout};
use crate::run::run_schema;
use crate::words::{Command, command_of};
use crate::{End, Refusal};
use psl_schema::{SchemaFault, check};
use psl_text::read_tree;
use qe_base::{FetchFault, Host};
use qe_schema::Schema;
use qe_view::Connector;
use std::alloc::Global;

/// How many bytes a schema's text may have.
const LONGEST_SCHEMA: usize = 1_048_576;

/// The schema of a text, or how a command ends without it.
fn read_schema(alloc: Global, text: &[u8]) -> Result<Schema, End>
    ensures ok { IfOk result (HasSchema text.now) }
    ensures err { IfErr result (λ e. Unread e text.now) }
{
    let tree = match read_tree(alloc, text) {
        Ok(tree) => tree,
        Err(fault) => return Err(End::from(fault)),
    };
    match check(alloc, &tree) {
        Ok(schema) => Ok(schema),
        Err(SchemaFault::Broken { rule, at }) => { Err(End::Refused(Refusal::Broken { rule, at })) }
        Err(SchemaFault::Memory) => Err(End::Memory),
    }
}

/// Carries out a command over its schema, and gives the connector back.
fn obey<C: Connector, H: Host>(
    alloc: Global,
    command: Command,
    schema: Schema,
    connector: C,
    host: &mut H,
) -> (End, C)
    requires { (C.seen connector).attached ≡ None }
    ensures comes { SchemaComes command result.0 schema (H.seen host.old) (H.seen host.new) (C.seen connector) (C.seen result.1) (result.1 ≡ connector) }
    ensures causes { EndsFor result.0 (H.seen host.old) (H.seen host.new) }
    ensures others { OnlyMoved (H.seen host.old) (H.seen host.new) }
{
    match command {
        Command::Run => run_schema(alloc, schema, connector, host),
        Command::Validate => (say(host, b"ok\n"), connector),
        Command::Layout => (say_layout(alloc, &schema, host), connector),
    }
}

/// Carries out the command of the words, all but the line of its own, and gives the connector back.
fn carry_out<C: Connector, H: Host>(
    alloc: Global,
    words: &[String],
    connector: C,
    host: &mut H,
) -> (End, C)
    requires { (C.seen connector).attached ≡ None }
    ensures comes { Comes result.0 (map string_bytes words.now) (H.seen host.old) (H.seen host.new) (C.seen connector) (C.seen result.1) (result.1 ≡ connector) }
    ensures causes { EndsFor result.0 (H.seen host.old) (H.seen host.new) }
    ensures asked { AsksAtMost (map string_bytes words.now) (H.seen host.old) (H.seen host.new) }
{
    let Some((command, name)) = command_of(words) else {
        return (End::Usage, connector);
    };
    let text = match host.fetch(name, LONGEST_SCHEMA) {
        Ok(text) => text,
        Err(FetchFault::Failed) => return (End::FetchFault, connector),
        Err(FetchFault::Memory) => return (End::Memory, connector),
    };
    match read_schema(alloc, text.as_slice()) {
        Ok(schema) => obey(alloc, command, schema, connector, host),
        Err(end) => (end, connector),
    }
}

/// Carries out a command over any connector that isn't attached. Gives the status of the program, and
/// the connector back.
fn offline_over<C: Connector, H: Host>(
    alloc: Global,
    words: &[String],
    connector: C,
    host: &mut H,
) -> (u8, C)
    requires { (C.seen connector).attached ≡ None }
    // How it ended: by then so much was read and written, and the line of the end after that.
    ensures ends { EndsOver C.seen (map string_bytes words.now) (H.seen host.old) (H.seen host.new) connector result.1 result.0 }

    // What the status says.
    ensures usage { (result.0 ≡ 2) ↔ (command_of (map string_bytes words.now) ≡ None) }
    ensures refused { result.0 ≡ 3 → SaysWhy (map string_bytes words.now) (H.seen host.old) (H.seen host.new) }
    ensures answered { AnswersOver C.seen (map string_bytes words.now) (H.seen host.old) (H.seen host.new) connector result.1 result.0 }
    ensures validated { result.0 ≡ 0 → Validates (map string_bytes words.now) (H.seen host.old) (H.seen host.new) }
    ensures laid { result.0 ≡ 0 → LaysOut (map string_bytes words.now) (H.seen host.old) (H.seen host.new) }
    ensures opened { result.0 ≡ 0 → Opens (map string_bytes words.now) (H.seen host.old) (C.seen result.1) }
    ensures still { ReadsAlone (map string_bytes words.now) → IsUnread (H.seen host.old) (H.seen host.new) }
    ensures apart { IsApart (map string_bytes words.now) result.0 → result.1 ≡ connector }
    ensures limit { result.0 ≡ 7 → IsLong (H.seen host.old) (H.seen host.new) }
    ensures prompt { AnswersAtOnce (map string_bytes words.now) (H.seen host.old) (H.seen host.new) }
    ensures asked { AsksAtMost (map string_bytes words.now) (H.seen host.old) (H.seen host.new) }

    // A fault has its cause, and over a steady host that has the file there is none.
    ensures calm { result.0 ≡ 0 → IsCalm (H.seen host.old) (H.seen host.new) }
    ensures fault { result.0 ≡ 4 → HasFault (H.seen host.old) (H.seen host.new) }
    ensures steady { IsSteady (H.seen host.old) → FaultsOf (map string_bytes words.now) (H.seen host.old) result.0 }
    ensures shut { result.0 ≡ 6 → IsShutOver C.seen (map string_bytes words.now) (H.seen host.old) connector result.1 }

    // There the text of the file decides, but for want of memory and for the connector of a run.
    ensures accepts { IsSteady (H.seen host.old) → AcceptsSchema (map string_bytes words.now) (H.seen host.old) result.0 }
    ensures opens { OpensSchema (map string_bytes words.now) (H.seen host.old) (C.seen connector) result.0 }
    ensures refuses { IsSteady (H.seen host.old) → RefusesText (map string_bytes words.now) (H.seen host.old) result.0 }
{
    let (end, back) = carry_out(alloc, words, connector, host);
    let printed = print_end(alloc, end, host);
    (printed.status(), back)
}

/// What keeps the tables of a run.
type Kept = Box<dyn Connector + Send>;

/// How a command ended: the status of the program, and the connector that was handed in.
#[derive(Drop)]
pub struct Ended {
    pub status: u8,
    pub memory: Box<dyn Connector + Send>,
}

/// Carries out a command without waiting for anybody, with a connector for the tables of a run, which
/// isn't attached yet. Gives the status of the program: 0 where it was done, 2 for other words, 3 for
/// a schema's text that is refused, 4 where the host failed, 5 for want of memory, 6 where the
/// connector couldn't be attached, 7 for an input past 67,108,864 bytes.
pub fn offline<H: Host>(
    alloc: Global,
    words: &[String],
    host: &mut H,
    memory: Box<dyn Connector + Send>,
) -> Ended
    requires { (⟦<Kept as Connector>⟧.seen memory).attached ≡ None }
    // How it ended: by then so much was read and written, and the line of the end after that.
    ensures ends { EndsOver ⟦<Kept as Connector>⟧.seen (map string_bytes words.now) (H.seen host.old) (H.seen host.new) memory result.memory result.status }

    // What the status says.
    ensures usage { (result.status ≡ 2) ↔ (command_of (map string_bytes words.now) ≡ None) }
    ensures refused { result.status ≡ 3 → SaysWhy (map string_bytes words.now) (H.seen host.old) (H.seen host.new) }
    ensures answered { AnswersOver ⟦<Kept as Connector>⟧.seen (map string_bytes words.now) (H.seen host.old) (H.seen host.new) memory result.memory result.status }
    ensures validated { result.status ≡ 0 → Validates (map string_bytes words.now) (H.seen host.old) (H.seen host.new) }
    ensures laid { result.status ≡ 0 → LaysOut (map string_bytes words.now) (H.seen host.old) (H.seen host.new) }
    ensures opened { result.status ≡ 0 → Opens (map string_bytes words.now) (H.seen host.old) (⟦<Kept as Connector>⟧.seen result.memory) }
    ensures still { ReadsAlone (map string_bytes words.now) → IsUnread (H.seen host.old) (H.seen host.new) }
    ensures apart { IsApart (map string_bytes words.now) result.status → result.memory ≡ memory }
    ensures limit { result.status ≡ 7 → IsLong (H.seen host.old) (H.seen host.new) }
    ensures prompt { AnswersAtOnce (map string_bytes words.now) (H.seen host.old) (H.seen host.new) }
    ensures asked { AsksAtMost (map string_bytes words.now) (H.seen host.old) (H.seen host.new) }

    // A fault has its cause, and over a steady host that has the file there is none.
    ensures calm { result.status ≡ 0 → IsCalm (H.seen host.old) (H.seen host.new) }
    ensures fault { result.status ≡ 4 → HasFault (H.seen host.old) (H.seen host.new) }
    ensures steady { IsSteady (H.seen host.old) → FaultsOf (map string_bytes words.now) (H.seen host.old) result.status }
    ensures shut { result.status ≡ 6 → IsShutOver ⟦<Kept as Connector>⟧.seen (map string_bytes words.now) (H.seen host.old) memory result.memory }

    // There the text of the file decides, but for want of memory and for the connector of a run.
    ensures accepts { IsSteady (H.seen host.old) → AcceptsSchema (map string_bytes words.now) (H.seen host.old) result.status }
    ensures opens { OpensSchema (map string_bytes words.now) (H.seen host.old) (⟦<Kept as Connector>⟧.seen memory) result.status }
    ensures refuses { IsSteady (H.seen host.old) → RefusesText (map string_bytes words.now) (H.seen host.old) result.status }
{
    let (status, memory) = offline_over(alloc, words, memory, host);
    Ended { status, memory }
}

/// Carries out a command. So far it is `offline`.
pub fn command<H: Host>(
    alloc: Global,
    words: &[String],
    host: &mut H,
    memory: Box<dyn Connector + Send>,
) -> Ended
    requires { (⟦<Kept as Connector>⟧.seen memory).attached ≡ None }
    // How it ended: by then so much was read and written, and the line of the end after that.
    ensures ends { EndsOver ⟦<Kept as Connector>⟧.seen (map string_bytes words.now) (H.seen host.old) (H.seen host.new) memory result.memory result.status }

    // What the status says.
    ensures usage { (result.status ≡ 2) ↔ (command_of (map string_bytes words.now) ≡ None) }
    ensures refused { result.status ≡ 3 → SaysWhy (map string_bytes words.now) (H.seen host.old) (H.seen host.new) }
    ensures answered { AnswersOver ⟦<Kept as Connector>⟧.seen (map string_bytes words.now) (H.seen host.old) (H.seen host.new) memory result.memory result.status }
    ensures validated { result.status ≡ 0 → Validates (map string_bytes words.now) (H.seen host.old) (H.seen host.new) }
    ensures laid { result.status ≡ 0 → LaysOut (map string_bytes words.now) (H.seen host.old) (H.seen host.new) }
    ensures opened { result.status ≡ 0 → Opens (map string_bytes words.now) (H.seen host.old) (⟦<Kept as Connector>⟧.seen result.memory) }
    ensures still { ReadsAlone (map string_bytes words.now) → IsUnread (H.seen host.old) (H.seen host.new) }
    ensures apart { IsApart (map string_bytes words.now) result.status → result.memory ≡ memory }
    ensures limit { result.status ≡ 7 → IsLong (H.seen host.old) (H.seen host.new) }
    ensures prompt { AnswersAtOnce (map string_bytes words.now) (H.seen host.old) (H.seen host.new) }
    ensures asked { AsksAtMost (map string_bytes words.now) (H.seen host.old) (H.seen host.new) }

    // A fault has its cause, and over a steady host that has the file there is none.
    ensures calm { result.status ≡ 0 → IsCalm (H.seen host.old) (H.seen host.new) }
    ensures fault { result.status ≡ 4 → HasFault (H.seen host.old) (H.seen host.new) }
    ensures steady { IsSteady (H.seen host.old) → FaultsOf (map string_bytes words.now) (H.seen host.old) result.status }
    ensures shut { result.status ≡ 6 → IsShutOver ⟦<Kept as Connector>⟧.seen (map string_bytes words.now) (H.seen host.old) memory result.memory }

    // There the text of the file decides, but for want of memory and for the connector of a run.
    ensures accepts { IsSteady (H.seen host.old) → AcceptsSchema (map string_bytes words.now) (H.seen host.old) result.status }
    ensures opens { OpensSchema (map string_bytes words.now) (H.seen host.old) (⟦<Kept as Connector>⟧.seen memory) result.status }
    ensures refuses { IsSteady (H.seen host.old) → RefusesText (map string_bytes words.now) (H.seen host.old) result.status }
{
    offline(alloc, words, host, memory)
}
