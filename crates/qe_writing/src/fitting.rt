//! Which trees fit: a law, and worked examples over teams, which have an id and a name, and their
//! members, which have an id and a required reference to a team.
ghost use Rattle.std.specs.Prelude.{◌≡◌, ℕ, pos, List, [], ◌∷◌, true, false, Some, None, codes};
ghost use Rattle.qe_base.specs.declared.value.Value.TheVariants.{Null, Text, Int};
ghost use Rattle.qe_base.specs.declared.write.Edit.TheVariants.{Set, Add};
ghost use Rattle.qe_base.specs.declared.write.Create.{Create};
ghost use Rattle.qe_base.specs.declared.write.Op.{Op};
ghost use Rattle.qe_base.specs.declared.write.Op.TheVariants.{CreateMany};
ghost use Rattle.qe_base.specs.declared.write.Step.TheOpen as step;
ghost use Rattle.qe_base.specs.declared.write.Update.{Update};
ghost use Rattle.qe_base.specs.Schemas.{Schema};
ghost use Rattle.qe_schema.specs.Tables.{is_model};
ghost use Rattle.qe_writing.specs.Samples.{team, number, by_id};
ghost use Rattle.qe_writing.specs.FitSamples.{new, changed, team_with, steps_in, alone, placed, whole_team};
ghost use Rattle.qe_writing.specs.WriteFits.{create_fits, update_fits, op_fits, batch_fits, op_table};

/// A new member has a team by its column, by its own step or by the team that it is made with, and by
/// one of them alone.
pub fn new_rows_that_fit()
    ensures by_column { placed.fits 1 [] ≡ true }
    ensures by_parent { (team_with (step.Create alone ∷ [])).fits 0 [] ≡ true }
    ensures whole { (create_fits team whole_team).fits 0 [] ≡ true }
    ensures by_step { (new ((0, number 7) ∷ []) (steps_in 1 (step.Connect (by_id 1) ∷ []))).fits 1 [] ≡ true }
    ensures by_none { alone.fits 1 [] ≡ false }
    ensures by_both { (team_with (step.Create placed ∷ [])).fits 0 [] ≡ false }
    ensures column_and_step { (new ((0, number 7) ∷ (1, number 1) ∷ []) (steps_in 1 (step.Connect (by_id 1) ∷ []))).fits 1 [] ≡ false }
    ensures kind { (new ((0, Text (codes "7")) ∷ (1, number 1) ∷ []) []).fits 1 [] ≡ false }
    ensures null { (new ((0, number 7) ∷ (1, Null) ∷ []) []).fits 1 [] ≡ false }
    ensures range { (new ((0, number 2147483648) ∷ (1, number 1) ∷ []) []).fits 1 [] ≡ false }
    ensures no_such_column { (new ((0, number 7) ∷ (1, number 1) ∷ (2, number 1) ∷ []) []).fits 1 [] ≡ false }
    ensures no_such_table { alone.fits 2 [] ≡ false }
{}

/// Steps stand where the shape of the relation and the place allow them.
pub fn steps_that_fit()
    ensures many { (team_with (step.CreateMany (alone ∷ alone ∷ []) ∷ [])).fits 0 [] ≡ true }
    ensures nested_many { (team_with (step.CreateMany (new ((0, number 7) ∷ []) (steps_in 1 []) ∷ []) ∷ [])).fits 0 [] ≡ false }
    ensures set_in_create { (team_with (step.Set [] ∷ [])).fits 0 [] ≡ false }
    ensures set_in_update { (changed [] (steps_in 2 (step.Set [] ∷ []))).fits 0 ≡ true }
    ensures set_of_one { (changed [] (steps_in 1 (step.Set [] ∷ []))).fits 1 ≡ false }
    ensures required { (changed [] (steps_in 1 (step.Disconnect None ∷ []))).fits 1 ≡ false }
    ensures no_where { (changed [] (steps_in 2 (step.Disconnect None ∷ []))).fits 0 ≡ false }
    ensures at_id { (changed [] (steps_in 2 (step.Disconnect (Some (by_id 7)) ∷ []))).fits 0 ≡ true }
    ensures two_on_one { (changed [] (steps_in 1 (step.Update None (changed [] []) ∷ step.Update None (changed [] []) ∷ []))).fits 1 ≡ false }
    ensures no_relation { (changed [] (steps_in 0 [])).fits 0 ≡ false }
{}

/// Numbers are added to whole numbers alone, and each column is edited once.
pub fn edits_that_fit()
    ensures number { (changed ((0, Add (pos 1)) ∷ []) []).fits 0 ≡ true }
    ensures text { (changed ((1, Add (pos 1)) ∷ []) []).fits 0 ≡ false }
    ensures set { (changed ((1, Set (Text (codes "u"))) ∷ []) []).fits 0 ≡ true }
    ensures set_null { (changed ((1, Set Null) ∷ []) []).fits 0 ≡ false }
    ensures twice { (changed ((0, Add (pos 1)) ∷ (0, Set (number 2)) ∷ []) []).fits 0 ≡ false }
    ensures reference_and_step { (changed ((1, Set (number 2)) ∷ []) (steps_in 1 (step.Update None (changed [] []) ∷ []))).fits 1 ≡ true }
{}

/// A batch has at least one operation.
pub fn batches_that_fit()
    ensures empty { batch_fits team [] ≡ false }
    ensures one { batch_fits team (CreateMany (record { 0 = 0 }) [] None ∷ []) ≡ true }
    ensures one_that_does_not_fit { batch_fits team (CreateMany (record { 0 = 2 }) [] None ∷ []) ≡ false }
{}

/// An operation that fits is on a model, and so is each row that it makes or changes.
#[tactic(auto, using(crate::proofs::Models::operation_model, crate::proofs::Models::created_model, crate::proofs::Models::updated_model))]
pub fn what_fits_is_on_models()
    ensures operations { (schema : Schema) (op : Op) → op_fits schema op ≡ true → is_model schema (op_table op) ≡ true }
    ensures creates { (schema : Schema) (create : Create) (table : ℕ) (columns : List ℕ) → (create_fits schema create).fits table columns ≡ true → is_model schema table ≡ true }
    ensures updates { (schema : Schema) (update : Update) (table : ℕ) → (update_fits schema update).fits table ≡ true → is_model schema table ≡ true }
{}
