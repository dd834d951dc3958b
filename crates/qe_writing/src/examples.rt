//! Worked examples of the definitions, by computation.
ghost use Rattle.std.specs.Prelude.{◌≡◌, ℕ, pos, negsuc, List, [], ◌∷◌, Some, Ok, Err, Result, None, codes};
ghost use Rattle.qe_base.specs.declared.value.Row.{Row};
ghost use Rattle.qe_base.specs.declared.value.Value.TheVariants.{Null, Text, Int, Moment};
ghost use Rattle.qe_base.specs.declared.answer.Rule.{Rule};
ghost use Rattle.qe_base.specs.declared.answer.Rule.TheVariants as rule;
ghost use Rattle.qe_base.specs.declared.answer.Why.TheVariants as why;
ghost use Rattle.qe_base.specs.declared.write.Edit.TheVariants.{Set, Add, Divide};
ghost use Rattle.qe_base.specs.declared.write.Step.TheOpen as step;
ghost use Rattle.qe_schema.specs.Tables.{no_rows, with_last};
ghost use Rattle.qe_writing.specs.Samples.{team, one_team, named, blog, category, by_name, by_id, updating, steps_on, pairs_after, tree, node, ring, watched, chain, taken, free, numbers, number, tally, kinds, nowhere, row, rows_after, values_in, entry, new_day, moved_day, entries_by};
ghost use Rattle.qe_writing.specs.Doomed.{place_of};
ghost use Rattle.qe_writing.specs.Delete.{delete_of};
ghost use Rattle.qe_writing.specs.Change.{change_of};
ghost use Rattle.qe_writing.specs.Edits.{edited};
ghost use Rattle.qe_writing.specs.Fill.{filled};
ghost use Rattle.qe_writing.specs.Write.{state_of, create_step, update_step};

/// A delete takes its kids and theirs, round a ring too; a row that watches and goes along keeps nothing. One
/// that stays and watches keeps what it watches.
pub fn deletes_in_a_tree()
    ensures cascade { rows_after 0 (delete_of tree (place_of 0 (node 1 (number 2) Null) ∷ []) (state_of ring 0)) ≡ Ok [] }
    ensures restrict { rows_after 0 (delete_of tree (place_of 0 (node 4 Null Null) ∷ []) (state_of watched 0)) ≡ Err (rule.Required (record { 0 = 1 })) }
{}

/// A changed id goes on along compound keys, and is refused where a row far down can't have its new values.
pub fn changes_along_a_chain()
    ensures refused { rows_after 2 (change_of chain 0 (number 1 ∷ []) (numbers (2 ∷ [])) (state_of taken 0)) ≡ Err (rule.Unique (record { 0 = 2 }) 1) }
    ensures parents { rows_after 1 (change_of chain 0 (number 1 ∷ []) (numbers (2 ∷ [])) (state_of free 0)) ≡ Ok (numbers (2 ∷ 1 ∷ []) ∷ []) }
    ensures children { rows_after 2 (change_of chain 0 (number 1 ∷ []) (numbers (2 ∷ [])) (state_of free 0)) ≡ Ok (numbers (10 ∷ 2 ∷ 1 ∷ 5 ∷ []) ∷ []) }
{}

/// Division goes towards zero; by zero, and past the kind, it is refused; null stays null.
pub fn edits_of_numbers()
    ensures towards_zero { edited tally 0 ((1, Divide (negsuc 1)) ∷ []) [] nowhere (numbers (1 ∷ 2147483647 ∷ [])) ≡ Ok (row (number 1 ∷ Int (negsuc 1073741822) ∷ [])) }
    ensures by_zero { edited tally 0 ((1, Divide (pos 0)) ∷ []) [] nowhere (numbers (1 ∷ 7 ∷ [])) ≡ Err (rule.Range (record { 0 = 0 }) 1 why.Zero) }
    ensures past { edited tally 0 ((1, Add (pos 1)) ∷ []) [] nowhere (numbers (1 ∷ 2147483647 ∷ [])) ≡ Err (rule.Range (record { 0 = 0 }) 1 why.Range) }
    ensures null { edited tree 0 ((1, Divide (pos 0)) ∷ []) [] nowhere (node 1 Null Null) ≡ Ok (node 1 Null Null) }
{}

/// A counter gives the next number until there is none.
pub fn counters()
    ensures next { values_in (filled tally 0 ((1, number 5) ∷ []) nowhere 0 (with_last 0 (pos 41) no_rows)) ≡ Ok (number 42 ∷ number 5 ∷ []) }
    ensures exhausted { values_in (filled tally 0 ((1, number 5) ∷ []) nowhere 0 (with_last 0 (pos 2147483647) no_rows)) ≡ Err (rule.Range (record { 0 = 0 }) 0 why.Exhausted) }
{}

/// Identifiers in order from the seed on, with the bits of version 4.
#[tactic(auto, unfolding(uuid::proofs::OnLiterals::uuid_on_literals))]
pub fn identifiers_in_order()
    ensures first { values_in (filled kinds 0 [] nowhere 0 no_rows) ≡ Ok (Text (codes "00000000-0000-4000-8000-000000000000") ∷ []) }
    ensures second { values_in (filled kinds 0 [] nowhere 1 no_rows) ≡ Ok (Text (codes "00000000-0000-4000-8000-000000000001") ∷ []) }
{}

/// Where a step refuses to let a required reference go, nothing of the update stays.
pub fn set_on_a_required_relation()
    ensures refused { rows_after 0 (update_step team nowhere (record { edits = (1, Set (Text (codes "u"))) ∷ []; nested = steps_on team 2 (step.Set [] ∷ []) }) 0 0 (updating 0 1 one_team)) ≡ Err (rule.Required (record { 0 = 0 })) }
{}

/// The first of two steps makes the category, and the second finds it.
pub fn connect_or_create_twice()
    ensures made { rows_after 1 (create_step blog nowhere (record { values = []; nested = steps_on blog 1 (step.ConnectOrCreate (by_name (codes "n")) (category (codes "n")) ∷ step.ConnectOrCreate (by_name (codes "n")) (category (codes "n")) ∷ []) }) 0 [] (state_of no_rows 0)) ≡ Ok (named 1 (codes "n") ∷ []) }
    ensures linked { pairs_after 2 (create_step blog nowhere (record { values = []; nested = steps_on blog 1 (step.ConnectOrCreate (by_name (codes "n")) (category (codes "n")) ∷ step.ConnectOrCreate (by_name (codes "n")) (category (codes "n")) ∷ []) }) 0 [] (state_of no_rows 0)) ≡ Ok ((number 1, number 1) ∷ []) }
{}

/// A delete of a kid that takes the row itself along leaves nothing to be updated.
pub fn delete_of_the_row_being_updated()
    ensures refused { rows_after 0 (update_step tree nowhere (record { edits = []; nested = steps_on tree 3 (step.Delete (Some (by_id 2)) ∷ []) }) 0 0 (updating 0 1 ring)) ≡ Err (rule.Absent (record { 0 = 0 })) }
{}

/// A step on a field gives the reference that the field holds, also where it attaches no row: then it stays, and
/// isn't set by the update. Only an update of the row that it leads to doesn't give it.
pub fn references_that_steps_give()
    ensures disconnect { entries_by (step.Disconnect None) ≡ Ok (entry 7 Null ∷ []) }
    ensures upsert { entries_by (step.Upsert None (new_day 9) (moved_day 4)) ≡ Ok (entry 7 (Moment (pos 4)) ∷ []) }
    ensures delete { entries_by (step.Delete None) ≡ Ok (entry 7 Null ∷ []) }
    ensures create { entries_by (step.Create (new_day 9)) ≡ Ok (entry 7 (Moment (pos 9)) ∷ []) }
    ensures update { entries_by (step.Update None (moved_day 4)) ≡ Ok (entry 7 (Moment (pos 5)) ∷ []) }
{}
