//! The rules on blocks, names, types, attributes, keys and defaults, one after another.
ghost use Rattle.std.specs.Prelude.{◌≡◌, IfOk};
ghost use Rattle.psl_rules.specs.Accepted.{breach_from};
ghost use Rattle.psl_schema.specs.Groups as groups;

use crate::breach::Breach;
use psl_fields::{
    arguments_are_right, attributes_are_known, attributes_stand_once, attributes_stand_rightly,
    field_names_are_distinct, has_a_model, lists_are_of_models, one_datasource, settings_are_given,
    type_names_are_distinct, types_are_known,
};
use psl_keys::{counters_are_ids, defaults_fit, keys_are_distinct, one_id};
use psl_parts::Types;
use psl_text::Tree;
use qe_text::Memory;
use std::alloc::Global;

/// The first breach of the rules 1 to 3, on blocks that there are.
pub fn broken_block(alloc: Global, tree: &Tree) -> Result<Option<Breach>, Memory>
    ensures { IfOk result (λ found. found ≡ breach_from 1 groups.block_rules tree.now) }
{
    if let Some(at) = one_datasource(alloc, tree)? {
        return Ok(Some(Breach { rule: 1, at }));
    }
    if let Some(at) = settings_are_given(alloc, tree)? {
        return Ok(Some(Breach { rule: 2, at }));
    }
    if let Some(at) = has_a_model(alloc, tree)? {
        return Ok(Some(Breach { rule: 3, at }));
    }
    Ok(None)
}

/// The first breach of the rules 4 to 7, on names and types.
pub fn broken_type(alloc: Global, types: &Types) -> Result<Option<Breach>, Memory>
    ensures { IfOk result (λ found. found ≡ breach_from 4 groups.type_rules types.now) }
{
    if let Some(at) = type_names_are_distinct(alloc, types.tree())? {
        return Ok(Some(Breach { rule: 4, at }));
    }
    if let Some(at) = field_names_are_distinct(alloc, types.tree())? {
        return Ok(Some(Breach { rule: 5, at }));
    }
    if let Some(at) = types_are_known(types) {
        return Ok(Some(Breach { rule: 6, at }));
    }
    if let Some(at) = lists_are_of_models(types) {
        return Ok(Some(Breach { rule: 7, at }));
    }
    Ok(None)
}

/// The first breach of the rules 8 to 11, on attributes.
pub fn broken_attribute(alloc: Global, types: &Types) -> Result<Option<Breach>, Memory>
    ensures { IfOk result (λ found. found ≡ breach_from 8 groups.attribute_rules types.now) }
{
    if let Some(at) = attributes_are_known(types.tree()) {
        return Ok(Some(Breach { rule: 8, at }));
    }
    if let Some(at) = attributes_stand_once(alloc, types.tree())? {
        return Ok(Some(Breach { rule: 9, at }));
    }
    if let Some(at) = arguments_are_right(types.tree()) {
        return Ok(Some(Breach { rule: 10, at }));
    }
    if let Some(at) = attributes_stand_rightly(alloc, types)? {
        return Ok(Some(Breach { rule: 11, at }));
    }
    Ok(None)
}

/// The first breach of the rules 12 to 15, on keys and defaults.
pub fn broken_key(alloc: Global, tree: &Tree) -> Result<Option<Breach>, Memory>
    ensures { IfOk result (λ found. found ≡ breach_from 12 groups.key_rules tree.now) }
{
    if let Some(at) = one_id(alloc, tree)? {
        return Ok(Some(Breach { rule: 12, at }));
    }
    if let Some(at) = keys_are_distinct(alloc, tree)? {
        return Ok(Some(Breach { rule: 13, at }));
    }
    if let Some(at) = defaults_fit(alloc, tree)? {
        return Ok(Some(Breach { rule: 14, at }));
    }
    if let Some(at) = counters_are_ids(alloc, tree)? {
        return Ok(Some(Breach { rule: 15, at }));
    }
    Ok(None)
}
