//! A source and a sink that are two objects.
ghost use Rattle.std.specs.Prelude.{◌≡◌};
ghost use Rattle.qe_base.specs.Causes.{HasCause};
ghost use Rattle.qe_node.specs.Joined.{RunsOverBoth, joined_seen};
ghost use Rattle.qe_session.specs.Standing.{Ready};

use crate::LinesEnd;
use crate::input::lines;
use qe_base::{Failed, Outer, Sink, Source};
use qe_schema::Schema;
use qe_session::Core;
use qe_view::Connector;
use std::alloc::Global;

/// A source and a sink as one object.
#[derive(Drop)]
struct Joined<S, O> {
    input: S,
    output: O,
}

impl<S: Source, O: Sink> Outer for Joined<S, O> {
    ghost seen = { λ j. joined_seen (S.seen j.input) (O.seen j.output) };
}

impl<S: Source, O: Sink> Source for Joined<S, O> {
    fn read(&mut self, into: &mut [u8]) -> Result<usize, Failed> {
        self.input.read(into)
    }
}

impl<S: Source, O: Sink> Sink for Joined<S, O> {
    fn write(&mut self, piece: &[u8]) -> Result<usize, Failed> {
        self.output.write(piece)
    }
}

/// Answers the lines of an input, as `lines` does, where source and sink are two objects. It gives them back with all
/// that was done to them.
pub fn run_lines<C: Connector, S: Source, O: Sink>(
    alloc: Global,
    core: &mut Core<C>,
    schema: &Schema,
    input: S,
    output: O,
) -> (LinesEnd, S, O)
    requires ready { Ready C.seen core.old }
    requires schema { core.old.schema ≡ schema.now }
    ensures ran { RunsOverBoth result.0 schema.now (S.seen input) (O.seen output) (S.seen result.1) (O.seen result.2) (C.seen core.old.view.below) (C.seen core.new.view.below) }
    ensures read_cause { HasCause (S.seen input).reads (S.seen result.1).reads (result.0 ≡ LinesEnd.ReadFault) }
    ensures write_cause { HasCause (O.seen output).writes (O.seen result.2).writes (result.0 ≡ LinesEnd.WriteFault) }
    ensures attached { (C.seen core.new.view.below).attached ≡ (C.seen core.old.view.below).attached }
    ensures ready { Ready C.seen core.new }
{
    let mut joined = Joined { input, output };
    let end = lines(alloc, core, schema, &mut joined);
    let Joined { input, output } = joined;
    (end, input, output)
}
