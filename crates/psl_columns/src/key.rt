//! The keys and indexes of models.
ghost use Rattle.std.specs.Prelude.{◌≡◌, ◌++◌, IfOk, OnOk, map, filter, [], ◌∷◌, None, option_copied};
ghost use Rattle.psl_rules.specs.Parts.{is_called, block_attributes};
ghost use Rattle.psl_rules.specs.Keys.{key_over};
ghost use Rattle.psl_columns.specs.Numbered.{numbered, indexes_over};
ghost use Rattle.psl_sound.specs.SchemaOf as spec;

use crate::names::{column_names, number_among};
use psl_keys::key_name;
use psl_parts::{Types, given_names, given_text, is_called};
use psl_text::{Attribute, Block, Entry, Name};
use qe_base::Key;
use qe_text::{Items, Memory};
use std::alloc::Global;

/// The numbers of these names in a list, in their order.
fn numbers_among(alloc: Global, all: &[&str], names: &[&str]) -> Result<Items<u16>, Memory>
    ensures { IfOk result (λ numbers. numbers ≡ map (spec.number_among (map (λ name. name.now) all.now)) (map (λ name. name.now) names.now)) }
{
    let mut numbers = Items::new(alloc);
    for name in names {
        let number = number_among(all, *name)?;
        numbers.push(number)?;
    }
    Ok(numbers)
}

/// The numbers of a model's columns of these names, in their order.
pub fn column_numbers(
    alloc: Global,
    types: &Types,
    model: &Block,
    names: &[&str],
) -> Result<Items<u16>, Memory>
    ensures { IfOk result (λ numbers. numbers ≡ spec.column_numbers types.now model.now (map (λ name. name.now) names.now)) }
{
    let columns = column_names(alloc, types, model)?;
    numbers_among(alloc, columns.as_slice(), names)
}

/// Appends the key that an attribute makes over these fields, where it has this name.
fn push_key(
    keys: &mut Items<Key>,
    alloc: Global,
    columns: &[&str],
    called: &str,
    attribute: &Attribute,
    fields: &[&str],
    given: Option<&str>,
) -> Result<(), Memory>
    ensures { OnOk result (keys.new ≡ keys.old ++ map (numbered (map (λ name. name.now) columns.now)) (map (λ attribute. key_over attribute (map (λ name. name.now) fields.now) (option_copied given.entry)) (filter (is_called called.now) (attribute.now ∷ [])))) }
{
    if is_called(attribute, called) {
        let name = key_name(alloc, fields, given)?;
        let columns = numbers_among(alloc, columns, fields)?;
        keys.push(Key { name, columns })?;
    }
    Ok(())
}

/// Appends the keys that a field's attributes of this name make.
fn push_keys_of(
    keys: &mut Items<Key>,
    alloc: Global,
    columns: &[&str],
    called: &str,
    field: &Name,
    attributes: &[Attribute],
) -> Result<(), Memory>
    ensures { OnOk result (keys.new ≡ keys.old ++ map (numbered (map (λ name. name.now) columns.now)) (map (λ attribute. key_over attribute (field.now.text ∷ []) None) (filter (is_called called.now) attributes.now))) }
{
    for attribute in attributes {
        push_key(
            keys,
            alloc,
            columns,
            called,
            attribute,
            &[field.text.as_str()],
            None,
        )?;
    }
    Ok(())
}

/// Appends the keys that attributes of this name make in an entry.
fn push_keys_in(
    keys: &mut Items<Key>,
    alloc: Global,
    columns: &[&str],
    called: &str,
    entry: &Entry,
) -> Result<(), Memory>
    ensures { OnOk result (keys.new ≡ keys.old ++ map (numbered (map (λ name. name.now) columns.now)) (spec.keys_called_in called.now entry.now)) }
{
    match entry {
        Entry::Setting { .. } => Ok(()),
        Entry::Member { .. } => Ok(()),
        Entry::Field {
            name,
            attributes,
            ..
        } => push_keys_of(keys, alloc, columns, called, name, attributes.as_slice()),
        Entry::Block { attribute, .. } => {
            let fields = given_names(alloc, attribute, "fields", true)?;
            let name = given_text(attribute, "name", false);
            push_key(
                keys,
                alloc,
                columns,
                called,
                attribute,
                fields.as_slice(),
                name,
            )
        }
    }
}

/// Appends the keys that attributes of this name make in a model, in text order.
fn push_keys(
    keys: &mut Items<Key>,
    alloc: Global,
    columns: &[&str],
    called: &str,
    model: &Block,
) -> Result<(), Memory>
    ensures { OnOk result (keys.new ≡ keys.old ++ map (numbered (map (λ name. name.now) columns.now)) (spec.keys_called called.now model.now)) }
{
    for entry in model.entries.as_slice() {
        push_keys_in(keys, alloc, columns, called, entry)?;
    }
    Ok(())
}

/// The keys of a model: its id, then its uniques in text order.
pub fn keys(alloc: Global, types: &Types, model: &Block) -> Result<Items<Key>, Memory>
    ensures { IfOk result (λ keys. keys ≡ spec.table_keys types.now model.now) }
{
    let columns = column_names(alloc, types, model)?;
    let columns = columns.as_slice();
    let mut keys = Items::new(alloc);
    push_keys(&mut keys, alloc, columns, "id", model)?;
    push_keys(&mut keys, alloc, columns, "unique", model)?;
    Ok(keys)
}

/// The numbers among these columns of those that a model's indexes have, in text order.
fn indexes_over(alloc: Global, columns: &[&str], model: &Block) -> Result<Items<Items<u16>>, Memory>
    ensures { IfOk result (λ indexes. indexes ≡ indexes_over (map (λ name. name.now) columns.now) (block_attributes model.now)) }
{
    let mut indexes = Items::new(alloc);
    for entry in model.entries.as_slice() {
        if let Entry::Block { attribute, .. } = entry {
            if is_called(attribute, "index") {
                let names = given_names(alloc, attribute, "fields", true)?;
                indexes.push(numbers_among(alloc, columns, names.as_slice())?)?;
            }
        }
    }
    Ok(indexes)
}

/// The columns of a model's indexes, in text order.
pub fn indexes(alloc: Global, types: &Types, model: &Block) -> Result<Items<Items<u16>>, Memory>
    ensures { IfOk result (λ indexes. indexes ≡ spec.indexes_of types.now model.now) }
{
    let columns = column_names(alloc, types, model)?;
    indexes_over(alloc, columns.as_slice(), model)
}
