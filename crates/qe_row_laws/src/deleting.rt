//! What holds of deletes over every sound schema.
ghost use Rattle.qe_base.specs.Schemas.{Schema};
ghost use Rattle.qe_schema.specs.Sound.{IsSound};
ghost use Rattle.qe_row_laws.specs.Left.{LeavesTheRest};
ghost use Rattle.qe_row_laws.specs.Deletes.{ComputesDoomed, ComputesTheLeast, DoomedAreUnique, DeletesFit, DeletesLeaveNoneDangling, ParentsStay, AcceptedKeepNone, RefusedKeepOne};

/// The rows that a delete takes away are the least set with the given ones that each cascade stays in.
pub fn doomed_rows_are_the_least()
    ensures computed { (schema : Schema) → IsSound schema → ComputesDoomed schema }
    ensures least { (schema : Schema) → IsSound schema → ComputesTheLeast schema }
    ensures unique { (schema : Schema) → IsSound schema → DoomedAreUnique schema }
{}

/// Tables that fit the schema fit it after a delete.
pub fn deletes_keep_tables_fitting()
    ensures fit { (schema : Schema) → IsSound schema → DeletesFit schema }
{}

/// No reference of a row that stays dangles by a delete.
pub fn deletes_leave_none_dangling()
    ensures found { (schema : Schema) → IsSound schema → DeletesLeaveNoneDangling schema }
    ensures stay { (schema : Schema) → IsSound schema → ParentsStay schema }
{}

/// A delete is refused exactly where a row that stays keeps a doomed one, and names the relation.
pub fn refusals_name_what_keeps()
    ensures accepted { (schema : Schema) → IsSound schema → AcceptedKeepNone schema }
    ensures refused { (schema : Schema) → IsSound schema → RefusedKeepOne schema }
{}

/// What a delete leaves: the rows that aren't doomed, with null for their references to doomed ones that
/// become null; all counters; and the pairs of which neither row is doomed.
pub fn deletes_leave_the_rest()
    ensures left { (schema : Schema) → IsSound schema → LeavesTheRest schema }
{}
