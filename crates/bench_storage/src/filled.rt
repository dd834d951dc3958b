//! Filling a connector by creates, each read from its line and handled by the core.
ghost use Rattle.std.specs.Prelude.{◌≡◌, None, IfOk, OnOk, true};
ghost use Rattle.qe_session.specs.Handling.{is_handled};
ghost use Rattle.qe_session.specs.Standing.{Ready};
ghost use Rattle.qe_view.specs.Attached.{FitLayout};
ghost use Rattle.qe_view.specs.Layouts.{layout_of};
ghost use Rattle.bench_storage.specs.Over.{IsOver};

use crate::made::{create_line, schema_text};
use crate::stop::Stop;
use crate::words::Shape;
use psl_schema::check;
use psl_text::read_tree;
use qe_base::{Event, Op, Outside, Reply, Shared, What};
use qe_request::read_line;
use qe_schema::Schema;
use qe_session::Core;
use qe_view::{Connector, Layout};
use std::alloc::Global;

/// The schema of a shape.
pub fn schema_of(alloc: Global, shape: Shape) -> Result<Shared<Schema>, Stop> {
    let text = schema_text(alloc, shape)?;
    let Ok(tree) = read_tree(alloc, text.as_str().as_bytes()) else {
        return Err(Stop::Schema);
    };
    match check(alloc, &tree) {
        Ok(schema) => Ok(Shared::new(alloc, schema)?),
        Err(_) => Err(Stop::Schema),
    }
}

/// The create of the row of a number, read from its line.
fn op_of(alloc: Global, schema: &Schema, number: u32) -> Result<Op, Stop>
    ensures { IfOk result (λ op. is_handled schema.now op ≡ true) }
{
    let line = create_line(alloc, number)?;
    match read_line(alloc, schema, line.as_str().as_bytes()) {
        Ok(op) => Ok(op),
        Err(_) => Err(Stop::Line),
    }
}

/// Makes and reads the lines of so many creates, and counts them.
pub fn read_lines(alloc: Global, schema: &Schema, rows: u32) -> Result<u64, Stop> {
    for number in 0..rows {
        let op = op_of(alloc, schema, number)?;
        drop(op);
    }
    Ok(u64::from(rows))
}

/// Attaches a connector with the layout of a schema.
fn open<C: Connector>(alloc: Global, schema: &Schema, connector: &mut C) -> Result<(), Stop>
    requires { (C.seen connector.old).attached ≡ None }
    ensures over { OnOk result (IsOver (layout_of schema.now) (C.seen connector.new)) }
    ensures fits { OnOk result (FitLayout (C.seen connector.new)) }
{
    let layout = Layout::of(alloc, schema)?;
    match connector.attach("", &layout) {
        Ok(()) => Ok(()),
        Err(_) => Err(Stop::Attach),
    }
}

/// Has a create handled at a place.
fn put<C: Connector>(core: &mut Core<C>, place: u64, op: Op) -> Result<(), Stop>
    requires ready { Ready C.seen core.old }
    requires handled { is_handled core.old.schema op ≡ true }
    ensures attached { (C.seen core.new.view.below).attached ≡ (C.seen core.old.view.below).attached }
    ensures schema { core.new.schema ≡ core.old.schema }
    ensures ready { Ready C.seen core.new }
{
    let event = Event {
        seen: None,
        outside: Outside { moment: 0, seed: 0 },
        what: What::Single(op),
    };
    let told = core.handle(place, &event);
    match &told.reply {
        Reply::Answer(_) => Ok(()),
        _ => Err(Stop::Create),
    }
}

/// Has so many rows created.
fn put_all<C: Connector>(
    alloc: Global,
    schema: &Schema,
    core: &mut Core<C>,
    rows: u32,
) -> Result<(), Stop>
    requires ready { Ready C.seen core.old }
    requires schema { core.old.schema ≡ schema.now }
    ensures attached { (C.seen core.new.view.below).attached ≡ (C.seen core.old.view.below).attached }
    ensures ready { Ready C.seen core.new }
{
    for number in 0..rows {
        let op = op_of(alloc, schema, number)?;
        put(core, u64::from(number), op)?;
    }
    Ok(())
}

/// Attaches a connector for a schema, has so many rows created in it, and gives it back.
pub fn fill<C: Connector>(
    alloc: Global,
    schema: &Shared<Schema>,
    connector: C,
    rows: u32,
) -> Result<C, Stop>
    requires { (C.seen connector).attached ≡ None }
    ensures { IfOk result (λ filled. IsOver (layout_of schema.now) (C.seen filled)) }
{
    let mut connector = connector;
    open(alloc, schema.get(), &mut connector)?;
    match Core::new(alloc, schema.share()?, connector) {
        Ok(core) => {
            let mut core = core;
            put_all(alloc, schema.get(), &mut core, rows)?;
            Ok(core.release())
        }
        Err(_) => Err(Stop::Memory),
    }
}
