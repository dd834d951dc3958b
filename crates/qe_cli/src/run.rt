//! A run: the lines of the input, answered over a schema by a connector.
ghost use Rattle.std.specs.Prelude.{◌≡◌, IfErr, IfOk, None, Ok, OnOk};
ghost use Rattle.qe_base.specs.Causes.{HasCause};
ghost use Rattle.qe_node.specs.Port.{OnlyMoved};
ghost use Rattle.qe_node.specs.Run.{RunsFromAny};
ghost use Rattle.qe_overlay.specs.Fits.{HasLayout};
ghost use Rattle.qe_session.specs.Standing.{Ready};
ghost use Rattle.qe_view.specs.Attached.{FitLayout};
ghost use Rattle.qe_view.specs.Layouts.{layout_of};
ghost use Rattle.qe_cli.specs.Command.{RunComes, RunGoesOn, StaysUnused};
ghost use Rattle.qe_cli.specs.Connected.{AttachesFor};
ghost use Rattle.qe_cli.specs.Ends.{EndsFor};

use crate::End;
use qe_base::{Host, Shared};
use qe_node::{LinesEnd, lines};
use qe_schema::Schema;
use qe_session::Core;
use qe_text::Memory;
use qe_view::{AttachFault, Connector, Layout};
use std::alloc::Global;

/// Attaches a connector at the place without a name, with the layout of a schema.
fn open<C: Connector>(alloc: Global, schema: &Schema, connector: &mut C) -> Result<(), End>
    requires { (C.seen connector.old).attached ≡ None }
    ensures ok { OnOk result (AttachesFor schema.now (C.seen connector.old) (C.seen connector.new) (Ok tt)) }
    ensures err { IfErr result (λ e. StaysUnused e schema.now (C.seen connector.old) (C.seen connector.new)) }
{
    let Ok(layout) = Layout::of(alloc, schema) else {
        return Err(End::Memory);
    };
    let before = connector.faults();
    match connector.attach("", &layout) {
        Ok(()) => Ok(()),
        Err(AttachFault::Failed) => Err(End::ConnectorFault {
            before,
            after: connector.faults(),
        }),
        Err(AttachFault::Layout { .. }) => Err(End::LayoutDiffers),
        Err(AttachFault::Memory) => Err(End::Memory),
    }
}

/// Answers the lines of the input by a core, and gives its connector back.
fn answer_lines<C: Connector, H: Host>(
    alloc: Global,
    core: Core<C>,
    schema: &Schema,
    host: &mut H,
) -> (LinesEnd, C)
    requires ready { Ready C.seen core }
    requires schema { core.schema ≡ schema.now }
    ensures ran { RunsFromAny result.0 schema.now (H.seen host.old) (H.seen host.new) (C.seen core.view.below) (C.seen result.1) }
    ensures read_cause { HasCause (H.seen host.old).reads (H.seen host.new).reads (result.0 ≡ LinesEnd.ReadFault) }
    ensures write_cause { HasCause (H.seen host.old).writes (H.seen host.new).writes (result.0 ≡ LinesEnd.WriteFault) }
    ensures others { OnlyMoved (H.seen host.old) (H.seen host.new) }
    ensures attached { (C.seen result.1).attached ≡ (C.seen core.view.below).attached }
{
    let mut core = core;
    let end = lines(alloc, &mut core, schema, host);
    (end, core.release())
}

/// Answers the lines of the input over a schema, by a connector that is attached for it. Gives the
/// connector back.
fn run_lines<C: Connector, H: Host>(
    alloc: Global,
    owner: Shared<Schema>,
    schema: &Schema,
    connector: C,
    host: &mut H,
) -> (End, C)
    requires same { owner ≡ schema.now }
    requires attached { HasLayout (C.seen connector) (layout_of schema.now) }
    requires fits { FitLayout (C.seen connector) }
    ensures comes { RunGoesOn result.0 schema.now (H.seen host.old) (H.seen host.new) (C.seen connector) (C.seen result.1) }
    ensures causes { EndsFor result.0 (H.seen host.old) (H.seen host.new) }
    ensures others { OnlyMoved (H.seen host.old) (H.seen host.new) }
{
    match Core::new(alloc, owner, connector) {
        Ok(core) => {
            let (lines, back) = answer_lines(alloc, core, schema, host);
            (End::from(lines), back)
        }
        Err((back, _)) => (End::Memory, back),
    }
}

/// Two owners of a schema.
fn owners(alloc: Global, schema: Schema) -> Result<(Shared<Schema>, Shared<Schema>), Memory>
    ensures { IfOk result (λ owners. (owners.0 ≡ schema) × (owners.1 ≡ schema)) }
{
    let one = Shared::new(alloc, schema)?;
    let other = one.share()?;
    Ok((one, other))
}

/// Answers the lines of the input over a schema, by the tables that a connector keeps. Gives the
/// connector back.
pub fn run_schema<C: Connector, H: Host>(
    alloc: Global,
    schema: Schema,
    connector: C,
    host: &mut H,
) -> (End, C)
    requires { (C.seen connector).attached ≡ None }
    ensures comes { RunComes result.0 schema (H.seen host.old) (H.seen host.new) (C.seen connector) (C.seen result.1) }
    ensures causes { EndsFor result.0 (H.seen host.old) (H.seen host.new) }
    ensures others { OnlyMoved (H.seen host.old) (H.seen host.new) }
{
    let Ok((one, other)) = owners(alloc, schema) else {
        return (End::Memory, connector);
    };
    let mut connector = connector;
    match open(alloc, other.get(), &mut connector) {
        Ok(()) => run_lines(alloc, one, other.get(), connector, host),
        Err(why) => (why, connector),
    }
}
