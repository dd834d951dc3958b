//! The rules on relations, on what is stored and on limits, one after another.
ghost use Rattle.std.specs.Prelude.{◌≡◌, IfOk};
ghost use Rattle.psl_rules.specs.Accepted.{breach_from};
ghost use Rattle.psl_schema.specs.Groups as groups;

use crate::breach::Breach;
use psl_parts::Types;
use psl_relations::{
    TreeIndex, actions_are_known, ends_are_paired, foreign_keys_are_whole, limits_hold,
    one_to_one_is_unique, pairs_have_a_holder, references_are_columns, references_are_keys,
    references_have_the_type, stored_names_are_distinct, updates_form_no_cycle,
};
use qe_text::Memory;
use std::alloc::Global;

/// The first breach of the rules 16 to 20, on pairs of fields and their foreign keys.
fn broken_pair<'a>(alloc: Global, models: &'a TreeIndex<'a>) -> Result<Option<Breach>, Memory>
    ensures { IfOk result (λ found. found ≡ breach_from 16 groups.pair_rules models.now) }
{
    if let Some(at) = ends_are_paired(alloc, models)? {
        return Ok(Some(Breach { rule: 16, at }));
    }
    if let Some(at) = pairs_have_a_holder(alloc, models)? {
        return Ok(Some(Breach { rule: 17, at }));
    }
    if let Some(at) = references_are_columns(alloc, models)? {
        return Ok(Some(Breach { rule: 18, at }));
    }
    if let Some(at) = references_have_the_type(alloc, models)? {
        return Ok(Some(Breach { rule: 19, at }));
    }
    if let Some(at) = foreign_keys_are_whole(alloc, models)? {
        return Ok(Some(Breach { rule: 20, at }));
    }
    Ok(None)
}

/// The first breach of the rules 21 to 24, on what foreign keys refer to, and on actions.
fn broken_reference<'a>(alloc: Global, models: &'a TreeIndex<'a>) -> Result<Option<Breach>, Memory>
    ensures { IfOk result (λ found. found ≡ breach_from 21 groups.reference_rules models.now) }
{
    if let Some(at) = references_are_keys(alloc, models)? {
        return Ok(Some(Breach { rule: 21, at }));
    }
    if let Some(at) = one_to_one_is_unique(alloc, models)? {
        return Ok(Some(Breach { rule: 22, at }));
    }
    if let Some(at) = actions_are_known(alloc, models)? {
        return Ok(Some(Breach { rule: 23, at }));
    }
    if let Some(at) = updates_form_no_cycle(alloc, models)? {
        return Ok(Some(Breach { rule: 24, at }));
    }
    Ok(None)
}

/// The first breach of the rules 25 and 26, on what is stored.
fn broken_store<'a>(alloc: Global, models: &'a TreeIndex<'a>) -> Result<Option<Breach>, Memory>
    ensures { IfOk result (λ found. found ≡ breach_from 25 groups.stored_rules models.now) }
{
    if let Some(at) = stored_names_are_distinct(alloc, models)? {
        return Ok(Some(Breach { rule: 25, at }));
    }
    if let Some(at) = limits_hold(alloc, models)? {
        return Ok(Some(Breach { rule: 26, at }));
    }
    Ok(None)
}

/// The first breach of a rule on relations and on what is stored, of the rules 16 to 26.
#[tactic(auto, using(crate::proofs::Later::relations_grouped))]
pub fn broken_relation(alloc: Global, types: &Types) -> Result<Option<Breach>, Memory>
    ensures { IfOk result (λ found. found ≡ breach_from 16 groups.relation_rules types.now) }
{
    let models = TreeIndex::of(alloc, &*types)?;
    if let Some(breach) = broken_pair(alloc, &models)? {
        return Ok(Some(breach));
    }
    if let Some(breach) = broken_reference(alloc, &models)? {
        return Ok(Some(breach));
    }
    broken_store(alloc, &models)
}
