//! Ids and uniques.
ghost use Rattle.std.specs.Prelude.{◌≡◌, ◌++◌, ◌&&◌, IfOk, OnOk, map, filter, [], ◌∷◌, None, unwrap_or, option_copied, option_to_list};
ghost use Rattle.psl_rules.specs.Parts.{first, fields, field_of};
ghost use Rattle.psl_rules.specs.Names.{is_optional};
ghost use Rattle.psl_rules.specs.Keys as spec;

use crate::lookup::FieldSet;
use crate::repeated::first_same_fields;
use psl_parts::{
    NameSet, blocks_of, earlier, first_repeat, given_names, given_text, has_attribute, is_called,
    noted, push_given_names,
};
use psl_rules::Key;
use psl_text::{Attribute, Block, Entry, Mark, Name, Tree, Word};
use qe_text::{Items, Memory, Text};
use std::alloc::Global;

/// The first of the places.
fn first_of(places: &[usize]) -> Option<usize>
    ensures { result ≡ first places.now }
{
    let mut found = None;
    for at in places {
        found = noted(found, true, *at);
    }
    found
}

/// Appends the place of an attribute that is an id.
fn push_id(places: &mut Vec<usize>, attribute: &Attribute) -> Result<(), Memory>
    ensures { OnOk result (places.new.items ≡ places.old.items ++ spec.id_places (attribute.now ∷ [])) }
{
    if is_called(attribute, "id") {
        places.push(attribute.name.at)?;
    }
    Ok(())
}

/// Appends the places of ids among the attributes.
fn push_ids(places: &mut Vec<usize>, attributes: &[Attribute]) -> Result<(), Memory>
    ensures { OnOk result (places.new.items ≡ places.old.items ++ spec.id_places attributes.now) }
{
    for attribute in attributes {
        push_id(places, attribute)?;
    }
    Ok(())
}

/// Appends the places of ids in an entry.
fn push_ids_in(places: &mut Vec<usize>, entry: &Entry) -> Result<(), Memory>
    ensures { OnOk result (places.new.items ≡ places.old.items ++ spec.ids_in entry.now) }
{
    match entry {
        Entry::Setting { .. } => Ok(()),
        Entry::Member { .. } => Ok(()),
        Entry::Field { attributes, .. } => push_ids(places, attributes.as_slice()),
        Entry::Block { attribute, .. } => push_id(places, attribute),
    }
}

/// The places of `@id` and `@@id` in a model, in text order.
fn ids_of(alloc: Global, model: &Block) -> Result<Vec<usize>, Memory>
    ensures { IfOk result (λ places. places.items ≡ spec.ids_of model.now) }
{
    let mut places = Vec::new(alloc);
    for entry in model.entries.as_slice() {
        push_ids_in(&mut places, entry)?;
    }
    Ok(places)
}

/// The fields that `@@id` names.
fn named_id(alloc: Global, model: &Block) -> Result<Vec<&str>, Memory>
    ensures { IfOk result (λ names. map (λ name. name.now) names.items ≡ spec.named_id model.now) }
{
    let mut names = Vec::new(alloc);
    for entry in model.entries.as_slice() {
        if let Entry::Block { attribute, .. } = entry {
            if is_called(attribute, "id") {
                push_given_names(&mut names, attribute, "fields", true)?;
            }
        }
    }
    Ok(names)
}

/// The names of the id's fields: the field with `@id`, or those of `@@id` in their order.
pub fn id_names(alloc: Global, model: &Block) -> Result<Vec<&str>, Memory>
    ensures { IfOk result (λ names. map (λ name. name.now) names.items ≡ spec.id_names model.now) }
{
    let mut names = marked_ids(alloc, model)?;
    names.append(&mut named_id(alloc, model)?)?;
    Ok(names)
}

/// The names of the fields with `@id`.
fn marked_ids(alloc: Global, model: &Block) -> Result<Vec<&str>, Memory>
    ensures { IfOk result (λ names. map (λ name. name.now) names.items ≡ spec.marked_ids (fields model.now)) }
{
    let mut names = Vec::new(alloc);
    for entry in model.entries.as_slice() {
        if let Entry::Field {
            name,
            attributes,
            ..
        } = entry
        {
            if has_attribute(attributes.as_slice(), "id") {
                names.push(name.text.as_str())?;
            }
        }
    }
    Ok(names)
}

/// Where there is no id, the place of the model's name; else the first of the ids behind the first.
fn further_id(alloc: Global, model: &Block) -> Result<Option<usize>, Memory>
    ensures { IfOk result (λ found. found ≡ first (spec.one_id_of model.now (spec.ids_of model.now))) }
{
    let ids = ids_of(alloc, model)?;
    match ids.as_slice() {
        [] => Ok(Some(model.name.at)),
        [_, others @ ..] => Ok(first_of(others)),
    }
}

fn is_optional(mark: Mark) -> bool
    ensures { result ≡ is_optional mark }
{
    match mark {
        Mark::One => false,
        Mark::Optional => true,
        Mark::Many => false,
    }
}

/// The place of an entry that is an optional field of the id, where `@@id` names these.
fn optional_id(entry: &Entry, named: &NameSet) -> Option<usize>
    ensures { result ≡ first (spec.optional_ids named.now (option_to_list (field_of entry.now))) }
{
    match entry {
        Entry::Setting { .. } => None,
        Entry::Member { .. } => None,
        Entry::Field {
            name,
            mark,
            attributes,
            ..
        } => {
            let is_id = has_attribute(attributes.as_slice(), "id") || named.has(name.text.as_str());
            noted(None, is_id && is_optional(*mark), name.at)
        }
        Entry::Block { .. } => None,
    }
}

/// The first place of a model's optional fields of the id.
fn first_optional_id(model: &Block, named: &NameSet) -> Option<usize>
    ensures { result ≡ first (spec.optional_ids named.now (fields model.now)) }
{
    let mut found = None;
    for entry in model.entries.as_slice() {
        found = earlier(found, optional_id(entry, named));
    }
    found
}

/// The first place in a model that breaks the rule on its id.
fn broken_id(alloc: Global, model: &Block) -> Result<Option<usize>, Memory>
    ensures { IfOk result (λ found. found ≡ first (spec.broken_ids model.now)) }
{
    let named = NameSet::of(alloc, named_id(alloc, model)?)?;
    let optional = first_optional_id(model, &named);
    Ok(earlier(further_id(alloc, model)?, optional))
}

/// Rule V12: a model has one id, whose fields are required. Broken at each further id, at the name of a
/// model without an id, and at each optional field of the id.
pub fn one_id(alloc: Global, tree: &Tree) -> Result<Option<usize>, Memory>
    ensures { IfOk result (λ found. found ≡ first (spec.one_id tree.now)) }
{
    let mut found = None;
    for model in blocks_of(alloc, tree, Word::Model)?.as_slice() {
        found = earlier(found, broken_id(alloc, model)?);
    }
    Ok(found)
}

/// The names joined by underscores.
fn joined(alloc: Global, names: &[&str]) -> Result<Text, Memory>
    ensures { IfOk result (λ text. text ≡ spec.joined (map (λ name. name.now) names.now)) }
{
    match names {
        [] => Text::from_str(alloc, ""),
        [first, others @ ..] => {
            let mut text = String::from_str(alloc, first)?;
            for name in others {
                text.push_str("_")?;
                text.push_str(name)?;
            }
            Ok(Text::from_string(text))
        }
    }
}

/// The name of a key: of one field that field's; of more the one that is given, or theirs joined.
pub fn key_name(alloc: Global, fields: &[&str], given: Option<&str>) -> Result<Text, Memory>
    ensures { IfOk result (λ text. text ≡ spec.key_name (map (λ name. name.now) fields.now) (option_copied given.entry)) }
{
    match fields {
        [] => given_or_joined(alloc, fields, given),
        [field] => Ok(Text::from_str(alloc, field)?),
        [_, _, ..] => given_or_joined(alloc, fields, given),
    }
}

fn given_or_joined(alloc: Global, fields: &[&str], given: Option<&str>) -> Result<Text, Memory>
    ensures { IfOk result (λ text. text ≡ unwrap_or (option_copied given.entry) (spec.joined (map (λ name. name.now) fields.now))) }
{
    match given {
        Some(name) => Text::from_str(alloc, name),
        None => joined(alloc, fields),
    }
}

/// The texts of these names.
fn texts_of(alloc: Global, names: &[&str]) -> Result<Items<Text>, Memory>
    ensures { IfOk result (λ texts. texts ≡ map (λ name. name.now) names.now) }
{
    let mut texts = Items::new(alloc);
    for name in names {
        texts.push(Text::from_str(alloc, name)?)?;
    }
    Ok(texts)
}

/// Appends the key that an attribute makes over these fields, where it makes one.
fn push_key(
    keys: &mut Vec<Key>,
    alloc: Global,
    attribute: &Attribute,
    fields: &[&str],
    given: Option<&str>,
) -> Result<(), Memory>
    ensures { OnOk result (keys.new.items ≡ keys.old.items ++ map (λ attribute. spec.key_over attribute (map (λ name. name.now) fields.now) (option_copied given.entry)) (filter spec.is_key (attribute.now ∷ []))) }
{
    if is_called(attribute, "id") || is_called(attribute, "unique") {
        let name = Name {
            text: key_name(alloc, fields, given)?,
            at: attribute.name.at,
        };
        let fields = texts_of(alloc, fields)?;
        keys.push(Key { name, fields })?;
    }
    Ok(())
}

/// Appends the keys in an entry.
fn push_keys_in(keys: &mut Vec<Key>, alloc: Global, entry: &Entry) -> Result<(), Memory>
    ensures { OnOk result (keys.new.items ≡ keys.old.items ++ spec.keys_in entry.now) }
{
    match entry {
        Entry::Setting { .. } => Ok(()),
        Entry::Member { .. } => Ok(()),
        Entry::Field {
            name,
            attributes,
            ..
        } => push_keys_of(keys, alloc, name, attributes.as_slice()),
        Entry::Block { attribute, .. } => {
            let fields = given_names(alloc, attribute, "fields", true)?;
            let name = given_text(attribute, "name", false);
            push_key(keys, alloc, attribute, fields.as_slice(), name)
        }
    }
}

/// Appends the keys that a field's attributes make.
fn push_keys_of(
    keys: &mut Vec<Key>,
    alloc: Global,
    field: &Name,
    attributes: &[Attribute],
) -> Result<(), Memory>
    ensures { OnOk result (keys.new.items ≡ keys.old.items ++ map (λ attribute. spec.key_over attribute (field.now.text ∷ []) None) (filter spec.is_key attributes.now)) }
{
    for attribute in attributes {
        push_key(keys, alloc, attribute, &[field.text.as_str()], None)?;
    }
    Ok(())
}

/// The ids and uniques of a model, in text order.
pub fn keys_of(alloc: Global, model: &Block) -> Result<Vec<Key>, Memory>
    ensures { IfOk result (λ keys. keys.items ≡ spec.keys_of model.now) }
{
    let mut keys = Vec::new(alloc);
    for entry in model.entries.as_slice() {
        push_keys_in(&mut keys, alloc, entry)?;
    }
    Ok(keys)
}

/// The names of the keys of several fields, in text order.
fn long_names(alloc: Global, keys: &[Key]) -> Result<Vec<&Name>, Memory>
    ensures { IfOk result (λ names. map (λ name. name.now) names.items ≡ map (λ key. key.name) (filter spec.is_long keys.now)) }
{
    let mut names = Vec::new(alloc);
    for key in keys {
        if key.fields.len() >= 2 {
            names.push(&key.name)?;
        }
    }
    Ok(names)
}

/// The first place of a key of several fields that is named as one of these fields.
fn first_named_among(fields: &FieldSet, keys: &[Key]) -> Option<usize>
    ensures { result ≡ first (map spec.key_place (filter (λ key. spec.is_long key && spec.names_field fields.now key.name.text) keys.now)) }
{
    let mut found = None;
    for key in keys {
        let is_named = key.fields.len() >= 2 && fields.has(&key.name.text);
        found = noted(found, is_named, key.name.at);
    }
    found
}

/// The first place of a key of several fields that is named as a field of the model.
fn first_named_as_field(alloc: Global, model: &Block, keys: &[Key]) -> Result<Option<usize>, Memory>
    ensures { IfOk result (λ found. found ≡ first (map spec.key_place (filter (λ key. spec.is_long key && spec.names_field model.now key.name.text) keys.now))) }
{
    let fields = FieldSet::of(alloc, model)?;
    Ok(first_named_among(&fields, keys))
}

/// The first place in a model that breaks the rule on its keys.
fn broken_key(alloc: Global, model: &Block) -> Result<Option<usize>, Memory>
    ensures { IfOk result (λ found. found ≡ first (spec.broken_keys model.now)) }
{
    let keys = keys_of(alloc, model)?;
    let keys = keys.as_slice();
    let names = long_names(alloc, keys)?;
    let repeated = first_repeat(alloc, names.as_slice())?;
    let named = first_named_as_field(alloc, model, keys)?;
    let same = first_same_fields(alloc, keys)?;
    Ok(earlier(earlier(same, repeated), named))
}

/// Rule V13: no two keys of a model have the same fields, and the names of longer keys differ from each
/// other and from those of the fields. Broken at the later attribute's name, and at that of a key which
/// is named as a field.
pub fn keys_are_distinct(alloc: Global, tree: &Tree) -> Result<Option<usize>, Memory>
    ensures { IfOk result (λ found. found ≡ first (spec.keys_are_distinct tree.now)) }
{
    let mut found = None;
    for model in blocks_of(alloc, tree, Word::Model)?.as_slice() {
        found = earlier(found, broken_key(alloc, model)?);
    }
    Ok(found)
}
