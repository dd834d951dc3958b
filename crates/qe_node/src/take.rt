//! Taking the lines of some bytes.
ghost use Rattle.std.specs.Prelude.{◌≡◌, ◌+◌, ◌<◌, ◌≤◌, ◌^◌, ◌++◌, ◌∷◌, [], OnOk, IfErr, IsErr, IsErrOf, MatchOption, false, is_err, length};
ghost use Rattle.qe_history.specs.Lines.{is_blank};
ghost use Rattle.qe_node.specs.Port.{Wrote};
ghost use Rattle.qe_node.specs.Taking.{SomeBy, TakesBy, WholeBy, filled, has_newline};
ghost use Rattle.qe_session.specs.Standing.{Ready};

use crate::answer::answer;
use memchr::memchr;
use qe_base::{Failed, Sink, Source};
use qe_schema::Schema;
use qe_session::Core;
use qe_view::Connector;
use std::alloc::Global;

/// Why taking lines stopped.
#[derive(Clone, Copy, Debug, PartialEq, Eq)]
pub enum Stop {
    /// A write failed.
    Write,
    Memory,
}

/// Whether a line is spaces, tabs and carriage returns alone.
fn is_blank_line(line: &[u8]) -> bool
    ensures { result ≡ is_blank line.now }
{
    line.iter()
        .all(|byte| *byte == b' ' || *byte == b'\t' || *byte == b'\r')
}

/// Answers a line, unless it is blank.
pub fn take_line<C: Connector, P: Source + Sink>(
    alloc: Global,
    core: &mut Core<C>,
    schema: &Schema,
    place: &mut u64,
    line: &[u8],
    port: &mut P,
) -> Result<(), Failed>
    requires ready { Ready C.seen core.old }
    requires schema { core.old.schema ≡ schema.now }
    requires room { place.old + 1 < 2 ^ 64 }
    ensures takes { TakesBy C.seen P.seen (is_err result) schema.now (filled (line.now ∷ [])) core.old core.new place.old place.new port.old port.new }
    ensures room { place.new ≤ place.old + 1 }
    ensures wrote { Wrote (P.seen port.old) (P.seen port.new) (IsErr result) }
    ensures attached { (C.seen core.new.view.below).attached ≡ (C.seen core.old.view.below).attached }
    ensures schema { core.new.schema ≡ schema.now }
    ensures ready { Ready C.seen core.new }
{
    if is_blank_line(line) {
        return Ok(());
    }
    answer(alloc, core, schema, place, line, port)
}

/// The bytes before the first newline, and those after it.
fn split_line(bytes: &[u8]) -> Option<(&[u8], &[u8])>
    ensures { MatchOption result (has_newline bytes.now ≡ false) (λ parts. (bytes.now ≡ parts.0.now ++ 10 ∷ parts.1.now) × (has_newline parts.0.now ≡ false)) }
{
    match memchr(b'\n', bytes) {
        Some(at) => {
            let (line, newline) = bytes.split_at(at);
            let (_, later) = newline.split_at(1);
            Some((line, later))
        }
        None => None,
    }
}

/// Puts bytes at the end of what is pending.
fn append(pending: &mut Vec<u8>, bytes: &[u8]) -> Result<(), Stop>
    ensures ok { OnOk result (pending.new.items ≡ pending.old.items ++ bytes.now) }
    ensures err { IfErr result (λ why. why ≡ Stop.Memory) }
{
    match pending.extend_from_slice(bytes) {
        Ok(()) => Ok(()),
        Err(_) => Err(Stop::Memory),
    }
}

/// Takes the whole lines of some bytes that come after those that are pending, and leaves what
/// stands after the last newline pending.
pub fn take_lines<C: Connector, P: Source + Sink>(
    alloc: Global,
    core: &mut Core<C>,
    schema: &Schema,
    place: &mut u64,
    pending: &mut Vec<u8>,
    bytes: &[u8],
    port: &mut P,
) -> Result<(), Stop>
    requires ready { Ready C.seen core.old }
    requires schema { core.old.schema ≡ schema.now }
    requires one_line { has_newline pending.old.items ≡ false }
    requires room { place.old + length bytes.now < 2 ^ 64 }
    ensures ok { OnOk result (WholeBy C.seen P.seen schema.now (pending.old.items ++ bytes.now) pending.new.items core.old core.new place.old place.new port.old port.new) }
    ensures stops { IfErr result (λ why. SomeBy C.seen P.seen why schema.now (pending.old.items ++ bytes.now) core.old core.new place.old place.new port.old port.new) }
    ensures one_line { OnOk result (has_newline pending.new.items ≡ false) }
    ensures room { place.new ≤ place.old + length bytes.now }
    ensures wrote { Wrote (P.seen port.old) (P.seen port.new) (IsErrOf result Stop.Write) }
    ensures attached { (C.seen core.new.view.below).attached ≡ (C.seen core.old.view.below).attached }
    ensures schema { core.new.schema ≡ schema.now }
    ensures ready { Ready C.seen core.new }
{
    let mut rest = bytes;
    'lines: while let Some((line, later)) = split_line(rest) {
        append(pending, line)?;
        match take_line(alloc, core, schema, place, pending.as_slice(), port) {
            Ok(()) => {}
            Err(_) => return Err(Stop::Write),
        }
        pending.clear();
        rest = later;
    }
    append(pending, rest)
}
