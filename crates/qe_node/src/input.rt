//! Reading an input, line by line.
ghost use Rattle.std.specs.Prelude.{◌≡◌, ◌<◌, length, IfOk};
ghost use Rattle.qe_base.specs.Causes.{HasCause};
ghost use Rattle.qe_node.specs.Port.{OnlyMoved};
ghost use Rattle.qe_node.specs.Run.{RunsFromAny};
ghost use Rattle.qe_node.specs.Taking.{RunsOn, end_behind, end_by};
ghost use Rattle.qe_session.specs.Standing.{Ready};

use crate::LinesEnd;
use crate::answer::greet;
use crate::port::read_front;
use crate::take::{Stop, take_line, take_lines};
use qe_base::{Failed, Memory, Sink, Source};
use qe_schema::Schema;
use qe_session::Core;
use qe_view::Connector;
use std::alloc::Global;

/// How many bytes an input may have.
const LONGEST_INPUT: u64 = 67_108_864;

/// How many bytes one read asks for.
const PIECE: usize = 65_536;

/// The end that a stop brings about.
fn end_of(why: Stop) -> LinesEnd
    ensures { result ≡ end_by why }
{
    match why {
        Stop::Write => LinesEnd::WriteFault,
        Stop::Memory => LinesEnd::Memory,
    }
}

/// The end of a run behind its last line.
fn end_after(last: Result<(), Failed>) -> LinesEnd
    ensures { result ≡ end_behind last }
{
    match last {
        Ok(()) => LinesEnd::Done,
        Err(_) => LinesEnd::WriteFault,
    }
}

/// Takes all lines of an input, piece by piece. Each whole line is answered before more is read.
fn take_pieces<C: Connector, P: Source + Sink>(
    alloc: Global,
    core: &mut Core<C>,
    schema: &Schema,
    place: &mut u64,
    piece: &mut [u8],
    port: &mut P,
) -> LinesEnd
    requires ready { Ready C.seen core.old }
    requires schema { core.old.schema ≡ schema.now }
    requires some { 0 < length piece.old }
    requires first { place.old ≡ 1 }
    ensures ran { RunsOn result schema.now (C.seen core.old.view.below) (C.seen core.new.view.below) place.old place.new (P.seen port.old) (P.seen port.new) }
    ensures read_cause { HasCause (P.seen port.old).reads (P.seen port.new).reads (result ≡ LinesEnd.ReadFault) }
    ensures write_cause { HasCause (P.seen port.old).writes (P.seen port.new).writes (result ≡ LinesEnd.WriteFault) }
    ensures others { OnlyMoved (P.seen port.old) (P.seen port.new) }
    ensures attached { (C.seen core.new.view.below).attached ≡ (C.seen core.old.view.below).attached }
    ensures ready { Ready C.seen core.new }
{
    let mut pending = Vec::new(alloc);
    let mut room = LONGEST_INPUT + 1;
    'pieces: while room > 0 {
        let most = piece.len().min(room as usize);
        let count = match read_front(port, piece, most) {
            Ok(count) => count,
            Err(_) => return LinesEnd::ReadFault,
        };
        if count == 0 {
            let last = take_line(alloc, core, schema, place, pending.as_slice(), port);
            return end_after(last);
        }
        room -= count as u64;
        let within = if room == 0 { count - 1 } else { count };
        let (front, _) = piece.split_at(count);
        let (bytes, _) = front.split_at(within);
        match take_lines(alloc, core, schema, place, &mut pending, bytes, port) {
            Ok(()) => {}
            Err(why) => return end_of(why),
        }
    }
    LinesEnd::LongInput
}

/// A buffer for one read.
fn new_piece(alloc: Global) -> Result<Vec<u8>, Memory>
    ensures { IfOk result (λ piece. 0 < length piece.items) }
{
    Ok(vec![in alloc; 0; PIECE]?)
}

/// Answers the lines of an input, one after another. First it greets at place 0. Then it answers each whole line before
/// it reads on, and at the end of the input the last line, if that isn't blank.
pub fn lines<C: Connector, P: Source + Sink>(
    alloc: Global,
    core: &mut Core<C>,
    schema: &Schema,
    port: &mut P,
) -> LinesEnd
    requires ready { Ready C.seen core.old }
    requires schema { core.old.schema ≡ schema.now }
    ensures ran { RunsFromAny result schema.now (P.seen port.old) (P.seen port.new) (C.seen core.old.view.below) (C.seen core.new.view.below) }
    ensures read_cause { HasCause (P.seen port.old).reads (P.seen port.new).reads (result ≡ LinesEnd.ReadFault) }
    ensures write_cause { HasCause (P.seen port.old).writes (P.seen port.new).writes (result ≡ LinesEnd.WriteFault) }
    ensures others { OnlyMoved (P.seen port.old) (P.seen port.new) }
    ensures attached { (C.seen core.new.view.below).attached ≡ (C.seen core.old.view.below).attached }
    ensures ready { Ready C.seen core.new }
{
    greet(core);
    let Ok(mut piece) = new_piece(alloc) else {
        return LinesEnd::Memory;
    };
    let mut place = 1;
    take_pieces(alloc, core, schema, &mut place, piece.as_mut_slice(), port)
}
