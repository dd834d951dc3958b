//! The rule on defaults.
ghost use Rattle.std.specs.Prelude.{◌≡◌, IfOk, map, option_to_list};
ghost use Rattle.std.specs.List.{flat_map};
ghost use Rattle.psl_rules.specs.Parts.{first, failing, fields, field_of};
ghost use Rattle.psl_rules.specs.Attributes.{attribute_place};
ghost use Rattle.psl_rules.specs.Defaults as rule;
ghost use Rattle.psl_keys.specs.Unfit as spec;

use crate::fitting::fits_type;
use crate::members::Members;
use psl_parts::{blocks_of, earlier, given, is_called, noted};
use psl_text::{Attribute, Block, Entry, Tree, Word};
use qe_text::{Memory, Text};
use std::alloc::Global;

/// Whether an attribute is no default, or one that a field of this type may have.
fn fits(
    alloc: Global,
    members: &Members,
    kind: &Text,
    attribute: &Attribute,
) -> Result<bool, Memory>
    ensures { IfOk result (λ holds. holds ≡ spec.fits members.now kind.now attribute.now) }
{
    if !is_called(attribute, "default") {
        return Ok(true);
    }
    match given(attribute, "", true) {
        Some(value) => fits_type(alloc, members, kind, value),
        None => Ok(false),
    }
}

/// The first place of a wrong default among the attributes of a field of this type.
fn first_unfit(
    alloc: Global,
    members: &Members,
    kind: &Text,
    attributes: &[Attribute],
) -> Result<Option<usize>, Memory>
    ensures { IfOk result (λ found. found ≡ first (failing (spec.fits members.now kind.now) attribute_place attributes.now)) }
{
    let mut found = None;
    for attribute in attributes {
        let holds = fits(alloc, members, kind, attribute)?;
        found = noted(found, !holds, attribute.name.at);
    }
    Ok(found)
}

/// The first place of a wrong default on an entry that is a field.
fn unfit_at_entry(alloc: Global, members: &Members, entry: &Entry) -> Result<Option<usize>, Memory>
    ensures { IfOk result (λ found. found ≡ first (spec.unfit members.now (option_to_list (field_of entry.now)))) }
{
    match entry {
        Entry::Setting { .. } => Ok(None),
        Entry::Member { .. } => Ok(None),
        Entry::Field {
            kind,
            attributes,
            ..
        } => first_unfit(alloc, members, &kind.text, attributes.as_slice()),
        Entry::Block { .. } => Ok(None),
    }
}

/// The first place of a wrong default on the fields of a model.
fn unfit_in_model(alloc: Global, members: &Members, model: &Block) -> Result<Option<usize>, Memory>
    ensures { IfOk result (λ found. found ≡ first (spec.unfit members.now (fields model.now))) }
{
    let mut found = None;
    for entry in model.entries.as_slice() {
        found = earlier(found, unfit_at_entry(alloc, members, entry)?);
    }
    Ok(found)
}

/// The first place of a wrong default on the fields of these models.
fn unfit_in_models(
    alloc: Global,
    members: &Members,
    models: &[&Block],
) -> Result<Option<usize>, Memory>
    ensures { IfOk result (λ found. found ≡ first (flat_map (λ model. spec.unfit members.now (fields model)) (map (λ model. model.now) models.now))) }
{
    let mut found = None;
    for model in models {
        found = earlier(found, unfit_in_model(alloc, members, model)?);
    }
    Ok(found)
}

/// Rule V14: a default is one of its field's type. Broken at the attribute's name.
pub fn defaults_fit(alloc: Global, tree: &Tree) -> Result<Option<usize>, Memory>
    ensures { IfOk result (λ found. found ≡ first (rule.defaults_fit tree.now)) }
{
    let members = Members::of(alloc, tree)?;
    let models = blocks_of(alloc, tree, Word::Model)?;
    unfit_in_models(alloc, &members, models.as_slice())
}
