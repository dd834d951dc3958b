//! The core.
ghost use Rattle.std.specs.Prelude.{◌≡◌, [], IfOk, IfErr, IsNone, IfSome, true, false};
ghost use Rattle.std.specs.List.{list_all};
ghost use Rattle.qe_base.specs.declared.event.What.TheVariants as what;
ghost use Rattle.qe_forms.specs.Reply.{told_text};
ghost use Rattle.qe_history.specs.State.{has_seen};
ghost use Rattle.qe_overlay.specs.Fits.{HasLayout};
ghost use Rattle.qe_session.specs.Handling.{Calls, Does, Fits, GoesOn, GreetsBack, HasCauses, Moves, TellsUnseen, is_handled};
ghost use Rattle.qe_session.specs.Standing.{Ready, StandsFor, first_state};
ghost use Rattle.qe_view.specs.Attached.{FitLayout};
ghost use Rattle.qe_view.specs.Layouts.{layout_of};

use crate::run::{run_batch, run_single, tell};
use crate::told::Told;
use qe_base::{Event, Memory, Op, Reply, Shared, What};
use qe_overlay::{Overlay, OverlayView};
use qe_reply::{FaultRoom, write_reply};
use qe_schema::Schema;
use qe_view::Connector;
use std::alloc::Global;

/// A schema, and the connector that keeps its tables. It handles one event after another.
#[derive(Drop)]
pub struct Core<C> {
    alloc: Global,
    schema: Shared<Schema>,
    view: OverlayView<C>,
}

impl<C> Core<C> {
    /// The connector, with all that was done to it. It takes no memory.
    pub fn release(self) -> C
        ensures { result ≡ self.view.below }
    {
        let Core {
            alloc: _,
            schema: _schema,
            view,
        } = self;
        let (_overlay, below) = view.release();
        below
    }
}

impl<C: Connector> Core<C> {
    /// A core over a connector that is attached for the schema. It stands for the empty history. For want of memory
    /// the connector is handed back.
    pub fn new(alloc: Global, schema: Shared<Schema>, connector: C) -> Result<Core<C>, (C, Memory)>
        requires attached { HasLayout (C.seen connector) (layout_of schema) }
        requires fits { FitLayout (C.seen connector) }
        ensures schema { IfOk result (λ core. core.schema ≡ schema) }
        ensures below { IfOk result (λ core. core.view.below ≡ connector) }
        ensures ready { IfOk result (Ready C.seen) }
        ensures history { IfOk result (λ core. StandsFor schema (C.seen core.view.below) (first_state schema (C.seen connector)) []) }
        ensures back { IfErr result (λ back. back.0 ≡ connector) }
    {
        schema.get().is_sound();
        match schema.share() {
            Ok(shared) => {
                let view = OverlayView::over(shared, Overlay::new(alloc), connector);
                Ok(Core {
                    alloc,
                    schema,
                    view,
                })
            }
            Err(memory) => Err((connector, memory)),
        }
    }

    /// What is told to a caller that says to have seen an entry which isn't before this place.
    fn unseen(&self, place: u64, seen: Option<u64>) -> Option<Told>
        ensures none { IsNone result → has_seen seen place ≡ true }
        ensures some { IfSome result (λ told. has_seen seen place ≡ false) }
        ensures told { IfSome result (λ told. TellsUnseen place seen told.reply) }
        ensures text { IfSome result (λ told. told.text ≡ told_text self.now.schema told.reply) }
    {
        let asked = seen?;
        if asked < place {
            return None;
        }
        let reply = Reply::Unseen { asked, place };
        match write_reply(self.alloc, self.schema.get(), &reply) {
            Ok(text) => Some(Told { reply, text }),
            Err(_) => Some(Told::memory()),
        }
    }

    /// Carries out an operation by itself.
    fn single(&mut self, op: &Op) -> Told
        requires ready { Ready C.seen self.old }
        requires handled { is_handled self.old.schema op.now ≡ true }
        ensures does { Does self.old.schema (what.Single op.now) result.reply (C.seen self.old.view.below) (C.seen self.new.view.below) }
        ensures text { result.text ≡ told_text self.old.schema result.reply }
        ensures schema { self.new.schema ≡ self.old.schema }
        ensures ready { Ready C.seen self.new }
    {
        let Ok(room) = FaultRoom::new(self.alloc) else {
            return Told::memory();
        };
        let ran = run_single(self.alloc, self.schema.get(), op, &mut self.view);
        tell(self.alloc, self.schema.get(), ran, room, &mut self.view)
    }

    /// Carries out the operations of a batch, all of them or none.
    fn batch(&mut self, ops: &[Op]) -> Told
        requires ready { Ready C.seen self.old }
        requires handled { list_all (is_handled self.old.schema) ops.now ≡ true }
        ensures does { Does self.old.schema (what.Batch ops.now) result.reply (C.seen self.old.view.below) (C.seen self.new.view.below) }
        ensures text { result.text ≡ told_text self.old.schema result.reply }
        ensures schema { self.new.schema ≡ self.old.schema }
        ensures ready { Ready C.seen self.new }
    {
        let Ok(room) = FaultRoom::new(self.alloc) else {
            return Told::memory();
        };
        let ran = run_batch(self.alloc, self.schema.get(), ops, &mut self.view);
        tell(self.alloc, self.schema.get(), ran, room, &mut self.view)
    }

    /// Moves on by an event: tests what its caller has seen, and carries out its operations.
    fn move_on(&mut self, place: u64, event: &Event) -> Told
        requires ready { Ready C.seen self.old }
        requires fits { Fits self.old.schema event.now.what }
        ensures moves { Moves self.old.schema place event.now result.reply (C.seen self.old.view.below) (C.seen self.new.view.below) }
        ensures greets { GreetsBack event.now.what result.reply }
        ensures text { result.text ≡ told_text self.old.schema result.reply }
        ensures causes { HasCauses result.reply (C.seen self.old.view.below) (C.seen self.new.view.below) }
        ensures calls { Calls self.old.schema event.now.what (C.seen self.old.view.below) (C.seen self.new.view.below) }
        ensures attached { (C.seen self.new.view.below).attached ≡ (C.seen self.old.view.below).attached }
        ensures schema { self.new.schema ≡ self.old.schema }
        ensures ready { Ready C.seen self.new }
    {
        match &event.what {
            What::Hello => Told::hello(),
            What::Single(op) => match self.unseen(place, event.seen) {
                Some(told) => told,
                None => self.single(op),
            },
            What::Batch(ops) => match self.unseen(place, event.seen) {
                Some(told) => told,
                None => self.batch(ops.as_slice()),
            },
            What::Start(_) => unreachable!(),
            What::Step(_, _) => unreachable!(),
            What::Commit(_) => unreachable!(),
            What::Rollback(_) => unreachable!(),
        }
    }

    /// Handles an event at a place, which is the length of the history so far. The text of the reply, and room for
    /// that of a fault, are made before anything is applied; so no want of memory comes once it was.
    pub fn handle(&mut self, place: u64, event: &Event) -> Told
        requires ready { Ready C.seen self.old }
        requires fits { Fits self.old.schema event.now.what }
        ensures history { GoesOn self.old.schema place event.now result.reply (C.seen self.old.view.below) (C.seen self.new.view.below) }
        ensures greets { GreetsBack event.now.what result.reply }
        ensures text { result.text ≡ told_text self.old.schema result.reply }
        ensures causes { HasCauses result.reply (C.seen self.old.view.below) (C.seen self.new.view.below) }
        ensures calls { Calls self.old.schema event.now.what (C.seen self.old.view.below) (C.seen self.new.view.below) }
        ensures attached { (C.seen self.new.view.below).attached ≡ (C.seen self.old.view.below).attached }
        ensures schema { self.new.schema ≡ self.old.schema }
        ensures ready { Ready C.seen self.new }
    {
        self.move_on(place, event)
    }
}
