//! Laws of plain operations and of nested writes.
ghost use Rattle.std.specs.Prelude.{◌≡◌, Bool, List, true, Err};
ghost use Rattle.std.specs.List.{list_all};
ghost use Rattle.qe_base.specs.declared.answer.Outside.{Outside};
ghost use Rattle.qe_base.specs.declared.answer.Rule.{Rule};
ghost use Rattle.qe_base.specs.declared.write.Op.{Op};
ghost use Rattle.qe_schema.specs.Sound.{IsSound};
ghost use Rattle.qe_base.specs.Schemas.{Schema};
ghost use Rattle.qe_schema.specs.Fits.{FitsSchema};
ghost use Rattle.qe_schema.specs.Tables.{Tables};
ghost use Rattle.qe_writing.specs.Batch.{Refusal, plain_all};
ghost use Rattle.qe_writing.specs.Plain.{plain};
ghost use Rattle.qe_write_laws.specs.Keeps.{Keeps};
ghost use Rattle.qe_write_laws.specs.OnlyReads.{only_reads};
ghost use Rattle.qe_write_laws.specs.Unique.{OperationsRepeatNoKey, BatchesRepeatNoKey};
ghost use Rattle.qe_write_laws.specs.WriteLaws.{CreatesKeep, UpdatesKeep, OperationsKeep, BatchesKeep, FitAndPass};

/// Where an operation or a batch is refused, the tables are as before.
#[tactic(auto, using(crate::proofs::Refusals::refused_leaves, crate::proofs::Refusals::batch_refused_leaves))]
pub fn refusals_leave_tables()
    ensures operation { (schema : Schema) (op : Op) (outside : Outside) (tables : Tables) (broken : Rule) → (plain schema op outside tables).answer ≡ Err broken → (plain schema op outside tables).tables ≡ tables }
    ensures batch { (schema : Schema) (ops : List Op) (outside : Outside) (tables : Tables) (refusal : Refusal) → (plain_all schema ops outside tables).answers ≡ Err refusal → (plain_all schema ops outside tables).tables ≡ tables }
{}

/// Where only is read, the tables are as before.
#[tactic(auto, using(crate::proofs::Refusals::read_leaves, crate::proofs::Refusals::batch_read_leaves))]
pub fn reads_leave_tables()
    ensures operation { (schema : Schema) (op : Op) (outside : Outside) (tables : Tables) → only_reads op ≡ true → (plain schema op outside tables).tables ≡ tables }
    ensures batch { (schema : Schema) (ops : List Op) (outside : Outside) (tables : Tables) → list_all only_reads ops ≡ true → (plain_all schema ops outside tables).tables ≡ tables }
{}

/// Tables that fit a sound schema fit it after every write, operation and batch that fits the schema.
#[tactic(auto, using(crate::proofs::Fitting::creates_keep, crate::proofs::Fitting::updates_keep, crate::proofs::Fitting::operations_keep, crate::proofs::Fitting::batches_keep))]
pub fn operations_keep_tables_fitting()
    ensures create { (schema : Schema) → IsSound schema → CreatesKeep schema (FitsSchema schema) }
    ensures update { (schema : Schema) → IsSound schema → UpdatesKeep schema (FitsSchema schema) }
    ensures operation { (schema : Schema) → IsSound schema → OperationsKeep schema (FitsSchema schema) }
    ensures batch { (schema : Schema) → IsSound schema → BatchesKeep schema (FitsSchema schema) }
{}

/// Over tables that fit a sound schema, no operation or batch that fits it lets two rows of a table agree
/// on a key.
pub fn no_key_stands_twice()
    ensures operation { (schema : Schema) → IsSound schema → OperationsRepeatNoKey schema }
    ensures batch { (schema : Schema) → IsSound schema → BatchesRepeatNoKey schema }
{}

/// The same of any test of tables besides: what each single change keeps, operations and batches keep.
pub fn writes_keep_any_test()
    ensures operation { (schema : Schema) → IsSound schema → (test : Tables → Bool) → Keeps schema (FitAndPass schema test) → OperationsKeep schema (FitAndPass schema test) }
    ensures batch { (schema : Schema) → IsSound schema → (test : Tables → Bool) → Keeps schema (FitAndPass schema test) → BatchesKeep schema (FitAndPass schema test) }
{}
