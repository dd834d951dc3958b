//! Where attributes stand.
ghost use Rattle.std.specs.Prelude.{◌≡◌, IfOk, option_to_list};
ghost use Rattle.psl_rules.specs.Parts.{first, fields, field_of, block_attributes, block_attribute_of, failing};
ghost use Rattle.psl_rules.specs.Attributes as spec;

use psl_parts::{Columns, Types, blocks_of, earlier, given_names, is_called, is_value_type, noted};
use psl_text::{Attribute, Block, Entry, Word};
use qe_text::{Memory, Text};
use std::alloc::Global;

/// Whether an attribute may stand on a field of this type.
fn stands_rightly(types: &Types, kind: &Text, attribute: &Attribute) -> bool
    ensures { result ≡ spec.stands_rightly types.now kind.now attribute.now }
{
    if is_called(attribute, "relation") {
        types.is_model(kind)
    } else if is_called(attribute, "updatedAt") {
        kind.is_same("DateTime")
    } else {
        is_value_type(types, kind)
    }
}

fn first_wrong(types: &Types, kind: &Text, attributes: &[Attribute]) -> Option<usize>
    ensures { result ≡ first (failing (spec.stands_rightly types.now kind.now) spec.attribute_place attributes.now) }
{
    let mut found = None;
    for attribute in attributes {
        let stands = stands_rightly(types, kind, attribute);
        found = noted(found, !stands, attribute.name.at);
    }
    found
}

/// The first place of a wrong attribute on an entry that is a field.
fn wrong_on_field(types: &Types, entry: &Entry) -> Option<usize>
    ensures { result ≡ first (spec.wrong_on_fields types.now (option_to_list (field_of entry.now))) }
{
    match entry {
        Entry::Setting { .. } => None,
        Entry::Member { .. } => None,
        Entry::Field {
            kind,
            attributes,
            ..
        } => first_wrong(types, &kind.text, attributes.as_slice()),
        Entry::Block { .. } => None,
    }
}

/// The first place of a wrong attribute on the fields of a model.
fn wrong_on_fields(types: &Types, model: &Block) -> Option<usize>
    ensures { result ≡ first (spec.wrong_on_fields types.now (fields model.now)) }
{
    let mut found = None;
    for entry in model.entries.as_slice() {
        found = earlier(found, wrong_on_field(types, entry));
    }
    found
}

/// Whether an attribute of a model is over columns, where it is over fields.
fn is_over_columns(alloc: Global, columns: &Columns, attribute: &Attribute) -> Result<bool, Memory>
    ensures { IfOk result (λ holds. holds ≡ spec.is_over_columns columns.now.0 columns.now.1 attribute.now) }
{
    let names = given_names(alloc, attribute, "fields", true)?;
    let are_columns = columns.are_named(alloc, names.as_slice())?;
    Ok(is_called(attribute, "map") || are_columns)
}

/// The place of an entry that is a wrong attribute of the model.
fn wrong_on_model(alloc: Global, columns: &Columns, entry: &Entry) -> Result<Option<usize>, Memory>
    ensures { IfOk result (λ found. found ≡ first (failing (spec.is_over_columns columns.now.0 columns.now.1) spec.attribute_place (option_to_list (block_attribute_of entry.now)))) }
{
    match entry {
        Entry::Setting { .. } => Ok(None),
        Entry::Member { .. } => Ok(None),
        Entry::Field { .. } => Ok(None),
        Entry::Block { attribute, .. } => {
            let holds = is_over_columns(alloc, columns, attribute)?;
            Ok(noted(None, !holds, attribute.name.at))
        }
    }
}

/// The first place of a wrong attribute of the model, by its columns.
fn wrong_on_entries(
    alloc: Global,
    columns: &Columns,
    model: &Block,
) -> Result<Option<usize>, Memory>
    ensures { IfOk result (λ found. found ≡ first (failing (spec.is_over_columns columns.now.0 columns.now.1) spec.attribute_place (block_attributes model.now))) }
{
    let mut found = None;
    for entry in model.entries.as_slice() {
        found = earlier(found, wrong_on_model(alloc, columns, entry)?);
    }
    Ok(found)
}

/// The first place in a model of an attribute that stands wrongly.
fn wrong_attribute(alloc: Global, types: &Types, model: &Block) -> Result<Option<usize>, Memory>
    ensures { IfOk result (λ found. found ≡ first (spec.wrong_attributes types.now model.now)) }
{
    let columns = Columns::of(alloc, types, model)?;
    let on_model = wrong_on_entries(alloc, &columns, model)?;
    Ok(earlier(wrong_on_fields(types, model), on_model))
}

/// Rule V11: attributes stand on fields that may have them, and those of models name columns. Broken at
/// the attribute's name.
pub fn attributes_stand_rightly(alloc: Global, types: &Types) -> Result<Option<usize>, Memory>
    ensures { IfOk result (λ found. found ≡ first (spec.attributes_stand_rightly types.now)) }
{
    let mut found = None;
    for model in blocks_of(alloc, types.tree(), Word::Model)?.as_slice() {
        found = earlier(found, wrong_attribute(alloc, types, model)?);
    }
    Ok(found)
}
