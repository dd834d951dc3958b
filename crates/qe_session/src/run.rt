//! Running the operations of an event over a view, and telling what came of them.
ghost use Rattle.std.specs.Prelude.{◌≡◌, ◌⊎◌, true, None, OnOk, IfErr};
ghost use Rattle.qe_base.specs.Schemas.{Schema as SchemaSeen};
ghost use Rattle.qe_base.specs.declared.event.Reply.TheVariants as replies;
ghost use Rattle.qe_base.specs.declared.event.What.TheVariants as what;
ghost use Rattle.qe_forms.specs.Reply.{told_text};
ghost use Rattle.qe_overlay.specs.Held.{none_kept};
ghost use Rattle.std.specs.List.{list_all};
ghost use Rattle.qe_session.specs.Batches.{Ends, refused_at};
ghost use Rattle.qe_session.specs.Handling.{is_handled};
ghost use Rattle.qe_session.specs.Performing.{AppliesOnce, IsAnswer, IsMade, IsStill, IsTellable, IsUnsettled, Runs, TellsOf, ran_of};
ghost use Rattle.qe_session.specs.Standing.{InOrder, seen_in};
ghost use Rattle.qe_session.specs.declared.run.Ran.TheVariants as came;

use crate::told::Told;
use qe_base::{Answer, Items, Op, OpFault, Reply};
use qe_ops::run_op;
use qe_overlay::OverlayView;
use qe_reply::{FaultRoom, ReplyText, write_reply};
use qe_schema::Schema;
use qe_view::{ConnFault, Connector, View};
use std::alloc::Global;

/// What running the operations of an event came to. Its changes are in the view.
#[derive(Drop)]
pub enum Ran {
    /// All were accepted, and are replied so.
    Answered(Reply),
    /// One broke a rule, or met a kept row that doesn't fit.
    Refused(Reply),
    /// The connector failed at the operation of an index, if there are several; its counts of faults.
    Failed {
        index: Option<u64>,
        before: u64,
        after: u64,
    },
    Memory,
}

/// What an operation by itself came to.
fn ran_of(done: Result<Answer, OpFault>) -> Ran
    ensures { result ≡ ran_of done }
{
    match done {
        Ok(answer) => Ran::Answered(Reply::Answer(answer)),
        Err(OpFault::Rule(rule)) => refused(OpFault::Rule(rule)),
        Err(OpFault::Connector { before, after }) => Ran::Failed {
            index: None,
            before,
            after,
        },
        Err(OpFault::Misfit { table, column }) => refused(OpFault::Misfit { table, column }),
        Err(OpFault::Memory) => Ran::Memory,
    }
}

/// The refusal of an operation by itself.
fn refused(fault: OpFault) -> Ran
    ensures { result ≡ came.Refused (replies.Refused None fault) }
{
    Ran::Refused(Reply::Refused { index: None, fault })
}

/// Runs an operation by itself.
#[tactic(auto, using(crate::proofs::Running::single_runs))]
pub fn run_single<C: Connector>(
    alloc: Global,
    schema: &Schema,
    op: &Op,
    view: &mut OverlayView<C>,
) -> Ran
    requires order { InOrder C.seen view.old }
    requires schema { view.old.schema ≡ schema.now }
    requires handled { is_handled schema.now op.now ≡ true }
    ensures runs { Runs schema.now (what.Single op.now) (seen_in C.seen view.old) (seen_in C.seen view.new) result }
    ensures order { InOrder C.seen view.new }
    ensures schema { view.new.schema ≡ schema.now }
{
    let done = run_op(alloc, schema, op, view);
    ran_of(done)
}

/// What the operation of an index came to, where it was refused.
fn refused_at(index: u64, fault: OpFault) -> Ran
    ensures { result ≡ refused_at index fault }
{
    let index = Some(index);
    match fault {
        OpFault::Rule(rule) => Ran::Refused(Reply::Refused {
            index,
            fault: OpFault::Rule(rule),
        }),
        OpFault::Connector { before, after } => Ran::Failed {
            index,
            before,
            after,
        },
        OpFault::Misfit { table, column } => Ran::Refused(Reply::Refused {
            index,
            fault: OpFault::Misfit { table, column },
        }),
        OpFault::Memory => Ran::Memory,
    }
}

/// Runs one operation of a batch.
fn run_one<C: Connector>(
    alloc: Global,
    schema: &Schema,
    op: &Op,
    view: &mut OverlayView<C>,
) -> Result<Answer, OpFault>
    requires order { InOrder C.seen view.old }
    requires schema { view.old.schema ≡ schema.now }
    requires handled { is_handled schema.now op.now ≡ true }
    ensures ends { Ends schema.now op.now (seen_in C.seen view.old) (seen_in C.seen view.new) result }
    ensures order { InOrder C.seen view.new }
    ensures schema { view.new.schema ≡ schema.now }
{
    run_op(alloc, schema, op, view)
}

/// Runs operations one after another, up to the first that is refused.
pub fn run_batch<C: Connector>(
    alloc: Global,
    schema: &Schema,
    ops: &[Op],
    view: &mut OverlayView<C>,
) -> Ran
    requires order { InOrder C.seen view.old }
    requires schema { view.old.schema ≡ schema.now }
    requires handled { list_all (is_handled schema.now) ops.now ≡ true }
    ensures runs { Runs schema.now (what.Batch ops.now) (seen_in C.seen view.old) (seen_in C.seen view.new) result }
    ensures order { InOrder C.seen view.new }
    ensures schema { view.new.schema ≡ schema.now }
{
    let mut answers = Items::new(alloc);
    for op in ops {
        let index = answers.len() as u64;
        match run_one(alloc, schema, op, view) {
            Ok(answer) => {
                if answers.push(answer).is_err() {
                    return Ran::Memory;
                }
            }
            Err(fault) => return refused_at(index, fault),
        }
    }
    Ran::Answered(Reply::Answers(answers))
}

/// Tells this, and lets go of an answer that isn't told.
fn instead(reply: Reply, text: Option<ReplyText>, told: Told) -> Told
    ensures { result ≡ told }
{
    drop(text);
    drop(reply);
    told
}

/// Forgets the changes of a view.
fn forget<C: Connector>(view: &mut OverlayView<C>)
    requires order { InOrder C.seen view.old }
    ensures rest { view.new.overlay ≡ none_kept }
    ensures below { C.seen view.new.below ≡ C.seen view.old.below }
    ensures order { InOrder C.seen view.new }
    ensures schema { view.new.schema ≡ view.old.schema }
{
    view.forget();
}

/// Makes the changes of a view below, if there are any, or says what is told in place of an answer. Then the view has
/// none.
fn settle<C: Connector>(room: FaultRoom, view: &mut OverlayView<C>) -> Result<(), Told>
    requires order { InOrder C.seen view.old }
    requires still { IsStill (seen_in C.seen view.old) }
    ensures ok { OnOk result (IsMade (seen_in C.seen view.old) (C.seen view.new.below)) }
    ensures err { IfErr result (λ told. IsUnsettled told.reply (seen_in C.seen view.old) (C.seen view.new.below)) }
    ensures text { IfErr result (λ told. (schema : SchemaSeen) → told.text ≡ told_text schema told.reply) }
    ensures calls { AppliesOnce (seen_in C.seen view.old) (C.seen view.new.below) }
    ensures rest { view.new.overlay ≡ none_kept }
    ensures order { InOrder C.seen view.new }
    ensures schema { view.new.schema ≡ view.old.schema }
{
    if view.mark().0 == 0 {
        forget(view);
        return Ok(());
    }
    let before = view.faults();
    match view.settle() {
        Ok(()) => Ok(()),
        Err(ConnFault::Failed) => {
            let after = view.faults();
            forget(view);
            Err(Told::fault(room, None, before, after))
        }
        Err(ConnFault::Misfit { .. }) => {
            forget(view);
            Err(Told::memory())
        }
        Err(ConnFault::Memory) => {
            forget(view);
            Err(Told::memory())
        }
    }
}

/// Tells an answer once its changes are below. Its text is made before.
fn tell_answer<C: Connector>(
    alloc: Global,
    schema: &Schema,
    reply: Reply,
    room: FaultRoom,
    view: &mut OverlayView<C>,
) -> Told
    requires order { InOrder C.seen view.old }
    requires still { IsStill (seen_in C.seen view.old) }
    requires answer { IsAnswer reply }
    ensures tells { TellsOf (came.Answered reply) result.reply (seen_in C.seen view.old) (C.seen view.new.below) }
    ensures text { result.text ≡ told_text schema.now result.reply }
    ensures calls { AppliesOnce (seen_in C.seen view.old) (C.seen view.new.below) }
    ensures rest { view.new.overlay ≡ none_kept }
    ensures order { InOrder C.seen view.new }
    ensures schema { view.new.schema ≡ view.old.schema }
{
    let Ok(text) = write_reply(alloc, schema, &reply) else {
        forget(view);
        return instead(reply, None, Told::memory());
    };
    match settle(room, view) {
        Ok(()) => Told { reply, text },
        Err(told) => instead(reply, text, told),
    }
}

/// Tells a refusal.
fn tell_refusal(alloc: Global, schema: &Schema, reply: Reply) -> Told
    ensures reply { (result.reply ≡ reply) ⊎ (result.reply ≡ replies.Memory) }
    ensures text { result.text ≡ told_text schema.now result.reply }
{
    match write_reply(alloc, schema, &reply) {
        Ok(text) => Told { reply, text },
        Err(_) => instead(reply, None, Told::memory()),
    }
}

/// Tells what was run over a view: an answer once its changes are below, all else with the changes forgotten.
pub fn tell<C: Connector>(
    alloc: Global,
    schema: &Schema,
    ran: Ran,
    room: FaultRoom,
    view: &mut OverlayView<C>,
) -> Told
    requires order { InOrder C.seen view.old }
    requires tellable { IsTellable ran (seen_in C.seen view.old) }
    ensures tells { TellsOf ran result.reply (seen_in C.seen view.old) (C.seen view.new.below) }
    ensures text { result.text ≡ told_text schema.now result.reply }
    ensures calls { AppliesOnce (seen_in C.seen view.old) (C.seen view.new.below) }
    ensures rest { view.new.overlay ≡ none_kept }
    ensures order { InOrder C.seen view.new }
    ensures schema { view.new.schema ≡ view.old.schema }
{
    match ran {
        Ran::Answered(reply) => tell_answer(alloc, schema, reply, room, view),
        Ran::Refused(reply) => {
            forget(view);
            tell_refusal(alloc, schema, reply)
        }
        Ran::Failed {
            index,
            before,
            after,
        } => {
            forget(view);
            Told::fault(room, index, before, after)
        }
        Ran::Memory => {
            forget(view);
            Told::memory()
        }
    }
}
