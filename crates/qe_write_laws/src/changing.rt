//! What changes keep on sound schemas.
ghost use Rattle.qe_base.specs.Schemas.{Schema};
ghost use Rattle.qe_schema.specs.Sound.{IsSound};
ghost use Rattle.qe_write_laws.specs.ChangeLaws.{ChangesAreSteps, ChangesFit};
ghost use Rattle.qe_write_laws.specs.Keeping.{ChangesKeepAlike};

/// A change is its own step: the depth of its definition is enough.
#[tactic(auto, using(crate::proofs::Depth::steps_of_changes))]
pub fn changes_are_their_steps()
    ensures steps { (schema : Schema) → IsSound schema → ChangesAreSteps schema }
{}

/// A change to a row that fits its table leaves tables that fit.
#[tactic(auto, using(crate::proofs::StillFit::changes_fit))]
pub fn changes_keep_the_tables_fit()
    ensures fit { (schema : Schema) → IsSound schema → ChangesFit schema }
{}

/// Whatever test of tables the replacements of single rows keep, whole changes keep.
pub fn changes_keep_what_replacements_keep()
    ensures tests { (schema : Schema) → IsSound schema → ChangesKeepAlike schema }
{}
