//! The foreign keys of relations, and what happens to their rows.
ghost use Rattle.std.specs.Prelude.{◌≡◌, ◌==◌, ◌&&◌, IfOk, map, filter, length, not, option_copied};
ghost use Rattle.std.specs.List.{list_any, list_all};
ghost use Rattle.psl_rules.specs.Parts.{first, failing, given_name};
ghost use Rattle.qe_text.specs.Lists.{is_among};
ghost use Rattle.psl_rules.specs.Parts as parts;
ghost use Rattle.psl_rules.specs.Attributes.{name_columns};
ghost use Rattle.psl_rules.specs.Names.{is_column};
ghost use Rattle.psl_rules.specs.Relations.{has_fields, is_list, end_place, pair_place};
ghost use Rattle.psl_rules.specs.Foreign as spec;

use crate::model_index::ModelIndex;
use crate::passed::is_behind;
use crate::relations::{End, Pair, ends, pairs, partners};
use crate::sides::Sides;
use crate::targets::Targets;
use crate::tree_index::TreeIndex;
use psl_parts::{
    Columns, Field, Types, are_optional, are_required, earlier, given, have_same_types, is_among,
    is_value_type, name_in, noted, stand_once,
};
use psl_text::Attribute;
use qe_text::Memory;
use std::alloc::Global;

const ACTIONS: [&str; 3] = ["Cascade", "Restrict", "SetNull"];

fn given_name<'a>(attribute: &'a Attribute, parameter: &str) -> Option<&'a str>
    ensures { option_copied result ≡ given_name parameter.now attribute.now }
{
    match given(attribute, parameter, false) {
        Some(value) => name_in(value),
        None => None,
    }
}

/// What `onDelete` or `onUpdate` gives.
pub fn action<'a>(end: &End<'a>, part: &str) -> Option<&'a str>
    ensures { option_copied result ≡ spec.action part.now end.now }
{
    match end.relation() {
        Some(relation) => given_name(relation, part),
        None => None,
    }
}

/// Whether an action is Cascade or Restrict, or SetNull on an optional relation.
fn may_be_action(end: &End, action: Option<&str>) -> bool
    ensures { result ≡ spec.may_be_action end.now (option_copied action.entry) }
{
    match action {
        Some(name) => is_among(name, &ACTIONS) && (name != "SetNull" || end.is_optional()),
        None => true,
    }
}

fn acts_rightly(end: &End) -> bool
    ensures { result ≡ spec.acts_rightly end.now }
{
    may_be_action(end, action(end, "onDelete")) && may_be_action(end, action(end, "onUpdate"))
}

/// Rule V23: actions are Cascade, Restrict or SetNull, and SetNull stands on optional relations. Broken at the
/// field's name.
pub fn actions_are_known<'a>(
    alloc: Global,
    models: &'a TreeIndex<'a>,
) -> Result<Option<usize>, Memory>
    ensures { IfOk result (λ found. found ≡ first (spec.actions_are_known models.now)) }
{
    let mut found = None;
    for end in ends(alloc, models)?.as_slice() {
        found = noted(found, !acts_rightly(end), end.place());
    }
    Ok(found)
}

/// The ends that hold a foreign key.
pub fn holders<'e, 'a>(alloc: Global, ends: &'e [End<'a>]) -> Result<Vec<&'e End<'a>>, Memory>
    ensures { IfOk result (λ held. map (λ end. end.now) held.items ≡ filter has_fields ends.now) }
{
    let mut held = Vec::new(alloc);
    for end in ends {
        if end.has_fields() {
            held.push(end)?;
        }
    }
    Ok(held)
}

/// Whether the fields of the foreign key have the types of the model's fields that they refer to.
fn has_types_of(alloc: Global, end: &End, model: &ModelIndex) -> Result<bool, Memory>
    ensures { IfOk result (λ has. has ≡ spec.has_types_of end.now model.now) }
{
    let own = end.own_names(alloc)?;
    let other = end.other_names(alloc)?;
    let fields = end.index().fields_named(alloc, own.as_slice())?;
    let others = model.fields_named(alloc, other.as_slice())?;
    Ok(have_same_types(fields.as_slice(), others.as_slice()))
}

/// Whether the fields of the foreign key have the types of those of each of these models.
fn has_types_of_all(alloc: Global, end: &End, models: &[&ModelIndex]) -> Result<bool, Memory>
    ensures { IfOk result (λ has. has ≡ list_all (spec.has_types_of end.now) (map (λ model. model.now) models.now)) }
{
    for model in models {
        if !has_types_of(alloc, end, model)? {
            return Ok(false);
        }
    }
    Ok(true)
}

/// Whether the fields of the foreign key have the types of those that they refer to.
fn has_same_types<'a>(alloc: Global, end: &End<'a>, targets: &Targets<'a>) -> Result<bool, Memory>
    ensures { IfOk result (λ has. has ≡ spec.has_types_among (parts.models targets.now) end.now) }
{
    has_types_of_all(alloc, end, targets.led_to(end))
}

/// The first holder of a key of other types.
fn first_of_other_types<'a>(
    alloc: Global,
    targets: &Targets<'a>,
    held: &[&End<'a>],
) -> Result<Option<usize>, Memory>
    ensures { IfOk result (λ found. found ≡ first (failing (spec.has_types_among (parts.models targets.now)) end_place (map (λ end. end.now) held.now))) }
{
    let mut found = None;
    for end in held {
        let has_types = has_same_types(alloc, end, targets)?;
        found = noted(found, !has_types, end.place());
    }
    Ok(found)
}

/// Rule V19: a field and the one that it refers to have the same type. Broken at the name of the field with
/// `fields`.
pub fn references_have_the_type<'a>(
    alloc: Global,
    models: &'a TreeIndex<'a>,
) -> Result<Option<usize>, Memory>
    ensures { IfOk result (λ found. found ≡ first (spec.references_have_the_type models.now)) }
{
    let targets = Targets::of(alloc, models)?;
    let ends = ends(alloc, models)?;
    let held = holders(alloc, ends.as_slice())?;
    first_of_other_types(alloc, &targets, held.as_slice())
}

/// Whether the relation and all fields of its foreign key are optional, or all are required.
fn is_all_or_none(alloc: Global, end: &End) -> Result<bool, Memory>
    ensures { IfOk result (λ is. is ≡ spec.is_all_or_none end.now) }
{
    let names = end.own_names(alloc)?;
    let fields = end.index().fields_named(alloc, names.as_slice())?;
    let is_optional = end.is_optional();
    let is_required = !is_optional && are_required(fields.as_slice());
    Ok(is_required || (is_optional && are_optional(fields.as_slice())))
}

/// The first holder of a key that is neither optional nor required as it is.
fn first_not_whole(alloc: Global, held: &[&End]) -> Result<Option<usize>, Memory>
    ensures { IfOk result (λ found. found ≡ first (failing spec.is_all_or_none end_place (map (λ end. end.now) held.now))) }
{
    let mut found = None;
    for end in held {
        let is_whole = is_all_or_none(alloc, end)?;
        found = noted(found, !is_whole, end.place());
    }
    Ok(found)
}

/// Rule V20: a relation and all fields of its foreign key are optional, or all are required. Broken at the name
/// of the field with `fields`.
pub fn foreign_keys_are_whole<'a>(
    alloc: Global,
    models: &'a TreeIndex<'a>,
) -> Result<Option<usize>, Memory>
    ensures { IfOk result (λ found. found ≡ first (spec.foreign_keys_are_whole models.now)) }
{
    let ends = ends(alloc, models)?;
    let held = holders(alloc, ends.as_slice())?;
    first_not_whole(alloc, held.as_slice())
}

/// Whether these fields have values of their own.
fn are_columns(types: &Types, fields: &[Field]) -> bool
    ensures { result ≡ list_all (is_column types.now) fields.now }
{
    for field in fields {
        if !is_value_type(types, &field.kind().text) {
            return false;
        }
    }
    true
}

/// Whether there are so many fields, which all have values of their own.
fn are_so_many_columns(types: &Types, fields: &[Field], count: usize) -> bool
    ensures { result ≡ (length fields.now == count && list_all (is_column types.now) fields.now) }
{
    fields.len() == count && are_columns(types, fields)
}

/// Whether these are names of columns of a model. Only where they are not all found at once, its columns
/// are gone over.
fn are_columns_of(
    alloc: Global,
    types: &Types,
    model: &ModelIndex,
    names: &[&str],
) -> Result<bool, Memory>
    ensures { IfOk result (λ are. are ≡ name_columns types.now model.now (map (λ name. name.now) names.now)) }
{
    let fields = model.fields_named(alloc, names)?;
    let stand_once = stand_once(alloc, names)?;
    let are_found = are_so_many_columns(types, fields.as_slice(), names.len());
    if !names.is_empty() && stand_once && are_found {
        return Ok(true);
    }
    Columns::of(alloc, types, model.model())?.are_named(alloc, names)
}

/// Whether these are names of columns of each of these models.
fn are_columns_of_all(
    alloc: Global,
    types: &Types,
    models: &[&ModelIndex],
    names: &[&str],
) -> Result<bool, Memory>
    ensures { IfOk result (λ are. are ≡ list_all (λ model. name_columns types.now model (map (λ name. name.now) names.now)) (map (λ model. model.now) models.now)) }
{
    for model in models {
        if !are_columns_of(alloc, types, model, names)? {
            return Ok(false);
        }
    }
    Ok(true)
}

/// Whether these are names of columns of each model that the end leads to.
fn are_columns_of_targets<'a>(
    alloc: Global,
    types: &Types,
    targets: &Targets<'a>,
    end: &End<'a>,
    names: &[&str],
) -> Result<bool, Memory>
    ensures { IfOk result (λ are. are ≡ spec.of_target (parts.models targets.now) end.now (λ model. name_columns types.now model (map (λ name. name.now) names.now))) }
{
    are_columns_of_all(alloc, types, targets.led_to(end), names)
}

/// Whether the foreign key and what it refers to are columns, equally many.
fn names_columns<'a>(
    alloc: Global,
    types: &Types,
    targets: &Targets<'a>,
    end: &End<'a>,
) -> Result<bool, Memory>
    ensures { IfOk result (λ names. names ≡ spec.names_columns types.now (parts.models targets.now) end.now) }
{
    let own = end.own_names(alloc)?;
    let other = end.other_names(alloc)?;
    let has_columns = are_columns_of(alloc, types, end.index(), own.as_slice())?;
    let refers_to_columns = are_columns_of_targets(alloc, types, targets, end, other.as_slice())?;
    Ok(has_columns && refers_to_columns && own.len() == other.len())
}

/// What was found, with the place of this holder too where its key isn't of columns.
#[tactic(auto, using(crate::proofs::Behind::passed))]
fn noted_columns<'a>(
    alloc: Global,
    types: &Types,
    targets: &Targets<'a>,
    found: Option<usize>,
    end: &End<'a>,
) -> Result<Option<usize>, Memory>
    ensures { IfOk result (λ now. now ≡ parts.noted found (not (spec.names_columns types.now (parts.models targets.now) end.now)) (end_place end.now)) }
{
    let at = end.place();
    if is_behind(found, at) {
        return Ok(found);
    }
    let names_columns = names_columns(alloc, types, targets, end)?;
    Ok(noted(found, !names_columns, at))
}

/// The first holder of a key that isn't of columns.
fn first_without_columns<'a>(
    alloc: Global,
    types: &Types,
    targets: &Targets<'a>,
    held: &[&End<'a>],
) -> Result<Option<usize>, Memory>
    ensures { IfOk result (λ found. found ≡ first (failing (spec.names_columns types.now (parts.models targets.now)) end_place (map (λ end. end.now) held.now))) }
{
    let mut found = None;
    for end in held {
        found = noted_columns(alloc, types, targets, found, end)?;
    }
    Ok(found)
}

/// Rule V18: `fields` and `references` name columns, equally many, of the own and of the other model. Broken at
/// the name of the field with `fields`.
pub fn references_are_columns<'a>(
    alloc: Global,
    models: &'a TreeIndex<'a>,
) -> Result<Option<usize>, Memory>
    ensures { IfOk result (λ found. found ≡ first (spec.references_are_columns models.now)) }
{
    let targets = Targets::of(alloc, models)?;
    let ends = ends(alloc, models)?;
    let held = holders(alloc, ends.as_slice())?;
    first_without_columns(alloc, models.types(), &targets, held.as_slice())
}

/// Whether these are the fields of a key of the model, and required.
fn are_required_key<'a>(
    alloc: Global,
    model: &ModelIndex<'a>,
    names: &[&'a str],
) -> Result<bool, Memory>
    ensures { IfOk result (λ are. are ≡ spec.are_required_key model.now (map (λ name. name.now) names.now)) }
{
    let is_key = model.has_key(alloc, names)?;
    let fields = model.fields_named(alloc, names)?;
    Ok(is_key && are_required(fields.as_slice()))
}

/// Whether these are a key of each of these models, and required.
fn are_key_of_all<'a>(
    alloc: Global,
    models: &[&ModelIndex<'a>],
    names: &[&'a str],
) -> Result<bool, Memory>
    ensures { IfOk result (λ are. are ≡ list_all (λ model. spec.are_required_key model (map (λ name. name.now) names.now)) (map (λ model. model.now) models.now)) }
{
    for model in models {
        if !are_required_key(alloc, model, names)? {
            return Ok(false);
        }
    }
    Ok(true)
}

fn refers_to_key<'a>(alloc: Global, targets: &Targets<'a>, end: &End<'a>) -> Result<bool, Memory>
    ensures { IfOk result (λ refers. refers ≡ spec.refers_to_key (parts.models targets.now) end.now) }
{
    let names = end.other_names(alloc)?;
    are_key_of_all(alloc, targets.led_to(end), names.as_slice())
}

/// The first holder that refers to no key of required fields.
fn first_without_key<'a>(
    alloc: Global,
    targets: &Targets<'a>,
    held: &[&End<'a>],
) -> Result<Option<usize>, Memory>
    ensures { IfOk result (λ found. found ≡ first (failing (spec.refers_to_key (parts.models targets.now)) end_place (map (λ end. end.now) held.now))) }
{
    let mut found = None;
    for end in held {
        let refers_to_key = refers_to_key(alloc, targets, end)?;
        found = noted(found, !refers_to_key, end.place());
    }
    Ok(found)
}

/// Rule V21: what is referred to is a key of required fields. Broken at the name of the field with `fields`.
pub fn references_are_keys<'a>(
    alloc: Global,
    models: &'a TreeIndex<'a>,
) -> Result<Option<usize>, Memory>
    ensures { IfOk result (λ found. found ≡ first (spec.references_are_keys models.now)) }
{
    let targets = Targets::of(alloc, models)?;
    let ends = ends(alloc, models)?;
    let held = holders(alloc, ends.as_slice())?;
    first_without_key(alloc, &targets, held.as_slice())
}

fn has_list(ends: &[&End]) -> bool
    ensures { result ≡ list_any is_list (map (λ end. end.now) ends.now) }
{
    for end in ends {
        if end.is_list() {
            return true;
        }
    }
    false
}

/// Whether a relation of one row to one holds its foreign key once.
fn is_once<'e, 'a>(alloc: Global, sides: &Sides<'e, 'a>, end: &End<'a>) -> Result<bool, Memory>
    ensures { IfOk result (λ is. is ≡ spec.is_once sides.now end.now) }
{
    let partners = partners(alloc, end, sides)?;
    if has_list(partners.as_slice()) {
        return Ok(true);
    }
    let names = end.own_names(alloc)?;
    end.index().has_key(alloc, names.as_slice())
}

/// The first holder of a key that two rows may have, though its relation is of one row to one.
fn first_not_once<'a>(
    alloc: Global,
    ends: &[End<'a>],
    held: &[&End<'a>],
) -> Result<Option<usize>, Memory>
    ensures { IfOk result (λ found. found ≡ first (failing (spec.is_once ends.now) end_place (map (λ end. end.now) held.now))) }
{
    let sides = Sides::of(alloc, ends)?;
    let mut found = None;
    for end in held {
        let is_once = is_once(alloc, &sides, end)?;
        found = noted(found, !is_once, end.place());
    }
    Ok(found)
}

fn links_single_ids(pair: &Pair) -> bool
    ensures { result ≡ spec.links_single_ids pair.now }
{
    let first = pair.first().index().has_single_id();
    let second = pair.second().index().has_single_id();
    !pair.is_linked() || (first && second)
}

/// The first pair of lists of models whose ids aren't of one field.
fn first_of_longer_ids(pairs: &[Pair]) -> Option<usize>
    ensures { result ≡ first (failing spec.links_single_ids pair_place pairs.now) }
{
    let mut found = None;
    for pair in pairs {
        found = noted(found, !links_single_ids(pair), pair.place());
    }
    found
}

/// Rule V22: the foreign key of a one-to-one relation is a key of its own model, and models that are linked by
/// two lists have ids of one field. Broken at the name of the field with `fields`, or of the pair's
/// first field.
#[tactic(auto, using(psl_parts::proofs::Firsts::first_append))]
pub fn one_to_one_is_unique<'a>(
    alloc: Global,
    models: &'a TreeIndex<'a>,
) -> Result<Option<usize>, Memory>
    ensures { IfOk result (λ found. found ≡ first (spec.one_to_one_is_unique models.now)) }
{
    let ends = ends(alloc, models)?;
    let ends = ends.as_slice();
    let held = holders(alloc, ends)?;
    let pairs = pairs(alloc, ends)?;
    let one_to_one = first_not_once(alloc, ends, held.as_slice())?;
    let linked = first_of_longer_ids(pairs.as_slice());
    Ok(earlier(one_to_one, linked))
}
