//! Fields that count up by default.
ghost use Rattle.std.specs.Prelude.{◌≡◌, IfOk, map, [], ◌∷◌, option_to_list};
ghost use Rattle.psl_rules.specs.Parts.{first, fields, field_of, failing};
ghost use Rattle.psl_rules.specs.Attributes.{attribute_place};
ghost use Rattle.psl_rules.specs.Keys.{is_within};
ghost use Rattle.psl_rules.specs.Defaults as spec;

use crate::keys::id_names;
use psl_parts::{blocks_of, calls, earlier, given, is_among, is_called, noted};
use psl_text::{Attribute, Block, Entry, Tree, Word};
use qe_text::Memory;
use std::alloc::Global;

/// Whether an attribute is `@default(autoincrement())`.
fn counts(attribute: &Attribute) -> bool
    ensures { result ≡ spec.counts attribute.now }
{
    match given(attribute, "", true) {
        Some(value) => is_called(attribute, "default") && calls(value, "autoincrement"),
        None => false,
    }
}

/// Whether all names are this one.
fn are_all(names: &[&str], name: &str) -> bool
    ensures { result ≡ is_within (map (λ id. id.now) names.now) (name.now ∷ []) }
{
    for other in names {
        if !is_among(other, &[name]) {
            return false;
        }
    }
    true
}

/// Whether the field of this name is the whole id, where the id has these fields.
fn is_alone_id(ids: &[&str], name: &str) -> bool
    ensures { result ≡ spec.is_alone_id (map (λ id. id.now) ids.now) name.now }
{
    let are_same = are_all(ids, name);
    are_same && is_among(name, ids)
}

fn first_wrong(ids: &[&str], name: &str, attributes: &[Attribute]) -> Option<usize>
    ensures { result ≡ first (failing (spec.counts_rightly (map (λ id. id.now) ids.now) name.now) attribute_place attributes.now) }
{
    let is_alone = is_alone_id(ids, name);
    let mut found = None;
    for attribute in attributes {
        let holds = !counts(attribute) || is_alone;
        found = noted(found, !holds, attribute.name.at);
    }
    found
}

/// The first place of a wrong counter on an entry that is a field.
fn wrong_counter(ids: &[&str], entry: &Entry) -> Option<usize>
    ensures { result ≡ first (spec.wrong_counters (map (λ id. id.now) ids.now) (option_to_list (field_of entry.now))) }
{
    match entry {
        Entry::Setting { .. } => None,
        Entry::Member { .. } => None,
        Entry::Field {
            name,
            attributes,
            ..
        } => first_wrong(ids, name.text.as_str(), attributes.as_slice()),
        Entry::Block { .. } => None,
    }
}

/// The first place of a wrong counter on the fields of a model.
fn wrong_counters(ids: &[&str], model: &Block) -> Option<usize>
    ensures { result ≡ first (spec.wrong_counters (map (λ id. id.now) ids.now) (fields model.now)) }
{
    let mut found = None;
    for entry in model.entries.as_slice() {
        found = earlier(found, wrong_counter(ids, entry));
    }
    found
}

fn wrong_in_model(alloc: Global, model: &Block) -> Result<Option<usize>, Memory>
    ensures { IfOk result (λ found. found ≡ first (spec.counters_of model.now)) }
{
    let ids = id_names(alloc, model)?;
    Ok(wrong_counters(ids.as_slice(), model))
}

/// Rule V15: `autoincrement()` stands on a field that alone is the id. Broken at the attribute's name.
pub fn counters_are_ids(alloc: Global, tree: &Tree) -> Result<Option<usize>, Memory>
    ensures { IfOk result (λ found. found ≡ first (spec.counters_are_ids tree.now)) }
{
    let mut found = None;
    for model in blocks_of(alloc, tree, Word::Model)?.as_slice() {
        found = earlier(found, wrong_in_model(alloc, model)?);
    }
    Ok(found)
}
