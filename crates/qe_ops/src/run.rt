//! Running an operation.
ghost use Rattle.std.specs.Prelude.{◌≡◌, ℕ, true};
ghost use Rattle.qe_base.specs.declared.answer.Outside.{Outside};
ghost use Rattle.qe_base.specs.declared.write.Op.TheVariants as op;
ghost use Rattle.qe_reading.specs.CarriedOut.{is_carried_out};
ghost use Rattle.qe_writing.specs.Plain.{plain};
ghost use Rattle.qe_writing.specs.WriteFits.{op_fits};
ghost use Rattle.qe_ops.specs.Bounds.{loads_alone, calls_of_put, calls_of, reads_alone};
ghost use Rattle.qe_ops.specs.Leaves.{Leaves, Same};
ghost use Rattle.qe_ops.specs.Performs.{Carries, Performs};
ghost use Rattle.qe_ops.specs.Refusals.{TellsCounts, fault_of, fault_told};

use crate::fill::fill;
use crate::keys::{key_columns, load};
use crate::model::table_of;
use crate::put::put_row;
use crate::refusal::{Refusal, answered};
use crate::shape::shape;
use qe_base::{Answer, Create, Op, OpFault, Pick, Rule, TableId, Unique};
use qe_schema::Schema;
use qe_view::View;
use std::alloc::Global;

/// The row that a unique asks for as an answer, or what is answered where there is none.
fn find<V: View>(
    alloc: Global,
    schema: &Schema,
    table: TableId,
    at: &Unique,
    strict: bool,
    pick: &Pick,
    view: &mut V,
) -> Result<Answer, Refusal>
    requires stands { V.stands view.old }
    requires schema { (V.seen view.old).schema ≡ schema.now }
    requires fits { op_fits schema.now (op.FindUnique table at.now strict pick.now) ≡ true }
    requires carried { is_carried_out schema.now (op.FindUnique table at.now strict pick.now) ≡ true }
    ensures carries { (outside : Outside) → Carries (plain schema.now (op.FindUnique table at.now strict pick.now) outside) (V.seen view.old) (V.seen view.new) result }
    ensures stands { V.stands view.new }
    ensures same { Same (V.seen view.old) (V.seen view.new) }
    ensures leaves { Leaves (loads_alone 1) (V.seen view.old) (V.seen view.new) (fault_of result) }
{
    let model = table_of(schema, table);
    let columns = key_columns(model, at.key);
    let key = at.values.share()?;
    match load(table, columns, key, view)? {
        Some(row) => Ok(shape(alloc, model, pick, &row)?),
        None if strict => Err(Refusal::Rule(Rule::Absent { table })),
        None => Ok(Answer::Null),
    }
}

/// A new row, put and answered. Where a row holds one of its keys it is refused, and nothing changes.
fn create<V: View>(
    alloc: Global,
    schema: &Schema,
    table: TableId,
    tree: &Create,
    pick: &Pick,
    view: &mut V,
) -> Result<Answer, Refusal>
    requires stands { V.stands view.old }
    requires schema { (V.seen view.old).schema ≡ schema.now }
    requires fits { op_fits schema.now (op.Create table tree.now pick.now) ≡ true }
    requires carried { is_carried_out schema.now (op.Create table tree.now pick.now) ≡ true }
    ensures carries { (outside : Outside) → Carries (plain schema.now (op.Create table tree.now pick.now) outside) (V.seen view.old) (V.seen view.new) result }
    ensures stands { V.stands view.new }
    ensures leaves { Leaves (calls_of_put schema.now table.0) (V.seen view.old) (V.seen view.new) (fault_of result) }
{
    let model = table_of(schema, table);
    let row = fill(alloc, model.columns.as_slice(), tree.values.as_slice())?;
    let answer = shape(alloc, model, pick, &row)?;
    put_row(alloc, schema, table, row, view)?;
    Ok(answer)
}

/// Carries out an operation, or says why not.
fn carry_out<V: View>(
    alloc: Global,
    schema: &Schema,
    op: &Op,
    view: &mut V,
) -> Result<Answer, Refusal>
    requires stands { V.stands view.old }
    requires schema { (V.seen view.old).schema ≡ schema.now }
    requires fits { op_fits schema.now op.now ≡ true }
    requires carried { is_carried_out schema.now op.now ≡ true }
    ensures carries { (outside : Outside) → Carries (plain schema.now op.now outside) (V.seen view.old) (V.seen view.new) result }
    ensures stands { V.stands view.new }
    ensures leaves { Leaves (calls_of schema.now op.now) (V.seen view.old) (V.seen view.new) (fault_of result) }
    ensures reads { reads_alone op.now ≡ true → (V.seen view.new).past ≡ (V.seen view.old).past }
{
    match op {
        Op::FindUnique {
            table,
            at,
            strict,
            pick,
        } => find(alloc, schema, *table, at, *strict, pick, view),
        Op::Create { table, tree, pick } => create(alloc, schema, *table, tree, pick, view),
        _ => unreachable!(),
    }
}

/// Runs an operation that fits the schema and is carried out so far over a view of its tables. It answers, and
/// makes of the tables, what the documented rules say; after a refusal the tables are as before, and so is what can be
/// taken back. A find makes at most one load below; a create one for each key of its table, and one look at its counter.
pub fn run_op<V: View>(
    alloc: Global,
    schema: &Schema,
    op: &Op,
    view: &mut V,
) -> Result<Answer, OpFault>
    requires stands { V.stands view.old }
    requires schema { (V.seen view.old).schema ≡ schema.now }
    requires fits { op_fits schema.now op.now ≡ true }
    requires carried { is_carried_out schema.now op.now ≡ true }
    ensures performs { (outside : Outside) → Performs (plain schema.now op.now outside) (V.seen view.old) (V.seen view.new) result }
    ensures stands { V.stands view.new }
    ensures leaves { Leaves (calls_of schema.now op.now) (V.seen view.old) (V.seen view.new) (fault_told result) }
    ensures counts { TellsCounts (V.seen view.old).below.faults.count (V.seen view.new).below.faults.count result }
    ensures reads { reads_alone op.now ≡ true → (V.seen view.new).past ≡ (V.seen view.old).past }
{
    let before = view.faults();
    match carry_out(alloc, schema, op, view) {
        Ok(answer) => Ok(answer),
        Err(refusal) => Err(answered(refusal, before, view.faults())),
    }
}
