//! Answering one line.
ghost use Rattle.std.specs.Prelude.{◌≡◌, ◌+◌, ◌<◌, ◌≤◌, ◌^◌, ◌++◌, ◌∷◌, [], true, IsErr, is_err};
ghost use Rattle.qe_node.specs.Port.{WritesAll, Wrote};
ghost use Rattle.qe_node.specs.Serving.{Enters, Greets, fault_text, text_or_memory};
ghost use Rattle.qe_node.specs.Taking.{TakesBy};
ghost use Rattle.qe_session.specs.Handling.{is_handled};
ghost use Rattle.qe_session.specs.Standing.{Ready};

use crate::port::write_all;
use qe_base::{Event, Failed, Op, Outside, Sink, Source, What};
use qe_reply::{ReplyText, memory_line, not_json_line, unbuilt_line};
use qe_request::{LineFault, read_line};
use qe_schema::Schema;
use qe_session::{Core, Told};
use qe_view::Connector;
use std::alloc::Global;

/// Greets at place 0.
pub fn greet<C: Connector>(core: &mut Core<C>)
    requires ready { Ready C.seen core.old }
    ensures stands { Greets core.old.schema (C.seen core.old.view.below) (C.seen core.new.view.below) }
    ensures calls { (C.seen core.new.view.below).calls ≡ (C.seen core.old.view.below).calls }
    ensures attached { (C.seen core.new.view.below).attached ≡ (C.seen core.old.view.below).attached }
    ensures schema { core.new.schema ≡ core.old.schema }
    ensures ready { Ready C.seen core.new }
{
    let event = Event {
        seen: None,
        outside: Outside { moment: 0, seed: 0 },
        what: What::Hello,
    };
    let told = core.handle(0, &event);
    drop(told);
    drop(event);
}

/// The text of what an event came to.
fn text_of(told: Told) -> Option<ReplyText>
    ensures { result ≡ told.text }
{
    let Told { reply, text } = told;
    drop(reply);
    text
}

/// Handles an operation at the next place, and gives its reply's text.
fn enter<C: Connector>(core: &mut Core<C>, place: &mut u64, op: Op) -> Option<ReplyText>
    requires ready { Ready C.seen core.old }
    requires handled { is_handled core.old.schema op ≡ true }
    requires room { place.old + 1 < 2 ^ 64 }
    ensures enters { Enters core.old.schema op result (C.seen core.old.view.below) place.old (C.seen core.new.view.below) place.new }
    ensures place { place.new ≡ place.old + 1 }
    ensures attached { (C.seen core.new.view.below).attached ≡ (C.seen core.old.view.below).attached }
    ensures schema { core.new.schema ≡ core.old.schema }
    ensures ready { Ready C.seen core.new }
{
    let event = Event {
        seen: None,
        outside: Outside { moment: 0, seed: 0 },
        what: What::Single(op),
    };
    let told = core.handle(*place, &event);
    *place += 1;
    drop(event);
    text_of(told)
}

/// Writes a reply's text and a newline; where it has none, the line for want of memory.
fn write_text<P: Source + Sink>(port: &mut P, text: Option<ReplyText>) -> Result<(), Failed>
    ensures { WritesAll (P.seen port.old) (P.seen port.new) (text_or_memory text ++ 10 ∷ []) result }
{
    match text {
        Some(text) => write_all(port, text.with_newline().as_slice()),
        None => write_all(port, memory_line()),
    }
}

/// The line for a line that has no operation.
fn fault_line(fault: LineFault) -> &'static [u8]
    ensures { result.now ≡ fault_text fault ++ 10 ∷ [] }
{
    match fault {
        LineFault::NotJson => not_json_line(),
        LineFault::Unbuilt => unbuilt_line(),
        LineFault::Memory => memory_line(),
    }
}

/// Answers a line. Once an operation was handled, its reply is written without taking memory.
pub fn answer<C: Connector, P: Source + Sink>(
    alloc: Global,
    core: &mut Core<C>,
    schema: &Schema,
    place: &mut u64,
    line: &[u8],
    port: &mut P,
) -> Result<(), Failed>
    requires ready { Ready C.seen core.old }
    requires schema { core.old.schema ≡ schema.now }
    requires room { place.old + 1 < 2 ^ 64 }
    ensures takes { TakesBy C.seen P.seen (is_err result) schema.now (line.now ∷ []) core.old core.new place.old place.new port.old port.new }
    ensures room { place.new ≤ place.old + 1 }
    ensures wrote { Wrote (P.seen port.old) (P.seen port.new) (IsErr result) }
    ensures attached { (C.seen core.new.view.below).attached ≡ (C.seen core.old.view.below).attached }
    ensures schema { core.new.schema ≡ schema.now }
    ensures ready { Ready C.seen core.new }
{
    match read_line(alloc, schema, line) {
        Ok(op) => {
            let text = enter(core, place, op);
            write_text(port, text)
        }
        Err(fault) => write_all(port, fault_line(fault)),
    }
}
