//! The keys of a model, to look up by their fields in any order.
ghost use Rattle.std.specs.Prelude.{◌≡◌, IfOk, OnOk, [], ◌∷◌, None, map, filter, true, false, codes};
ghost use Rattle.psl_rules.specs.Parts.{given_names, given_text};
ghost use Rattle.psl_rules.specs.Keys as spec;
ghost use Rattle.psl_keys.specs.Gathered.{Gathers};
ghost use Rattle.psl_relations.specs.Sets.{Collects, Adds, AddsWhere, AddsAll, Keeps};

use psl_parts::{given_names, is_called};
use psl_text::{Attribute, Block, Entry, Name};
use qe_text::Memory;
use std::alloc::Global;
use std::collections::{BTreeSet, HashSet};
use std::marker::Model;

/// The fields of one key, each once and in their order.
type FieldSet<'a> = Vec<&'a str>;

/// A model, with its keys as sets of their fields.
#[derive(Drop)]
pub struct KeySets<'a> {
    model: &'a Block,
    sets: HashSet<FieldSet<'a>>,
}

impl<'a> Model for KeySets<'a> {
    ghost use Rattle.psl_text.specs.declared.tree.Block.{Block};
    ghost use Rattle.psl_rules.specs.Keys.{keys_of};
    ghost use Rattle.psl_relations.specs.Sets.{Keeps};
    ghost use Rattle.psl_text.specs.contracts.tree.Term as term;
    ghost use Rattle.std.specs.Coded.{codes};

    ghost Value = { Block };

    ghost coded = { Prim.hlevel (codes, term.the_row.coded) };

    ghost view = { λ k. k.model.now };

    ghost invariant = { λ k. Keeps k.sets (keys_of k.model.now) };
}

fn is_key(attribute: &Attribute) -> bool
    ensures { result ≡ spec.is_key attribute.now }
{
    is_called(attribute, "id") || is_called(attribute, "unique")
}

/// The names as a set.
fn gathered<'a>(alloc: Global, names: &[&'a str]) -> Result<BTreeSet<&'a str>, Memory>
    ensures { IfOk result (λ set. Gathers set (map (λ name. name.now) names.now)) }
{
    let mut set = BTreeSet::new(alloc);
    for name in names {
        set.insert(*name)?;
    }
    Ok(set)
}

/// The names of a set, in their order.
fn listed<'a>(alloc: Global, set: &BTreeSet<&'a str>) -> Result<FieldSet<'a>, Memory>
    ensures { IfOk result (λ list. list.items ≡ set.now.keys) }
{
    let mut list = Vec::new(alloc);
    for name in set.iter() {
        list.push(*name)?;
    }
    Ok(list)
}

/// The names, each once and in their order, so that lists of the same names are equal.
fn set_of<'a>(alloc: Global, names: &[&'a str]) -> Result<FieldSet<'a>, Memory>
    ensures { IfOk result (λ set. Collects set (map (λ name. name.now) names.now)) }
{
    let set = gathered(alloc, names)?;
    let list = listed(alloc, &set)?;
    Ok(list)
}

/// Adds the set of a key's fields.
fn add_key<'a>(
    sets: &mut HashSet<FieldSet<'a>>,
    alloc: Global,
    names: &[&'a str],
) -> Result<(), Memory>
    ensures { OnOk result (Adds sets.old sets.new (map (λ name. name.now) names.now)) }
{
    let set = set_of(alloc, names)?;
    sets.insert(set)?;
    Ok(())
}

/// Adds the set of these fields where the attribute makes a key.
fn add_where_key<'a>(
    sets: &mut HashSet<FieldSet<'a>>,
    alloc: Global,
    attribute: &Attribute,
    names: &[&'a str],
) -> Result<(), Memory>
    ensures { OnOk result (AddsWhere (spec.is_key attribute.now) sets.old sets.new (map (λ name. name.now) names.now)) }
{
    if !is_key(attribute) {
        return Ok(());
    }
    add_key(sets, alloc, names)?;
    Ok(())
}

/// Adds the keys that the attributes of a field make.
fn add_field_keys<'a>(
    sets: &mut HashSet<FieldSet<'a>>,
    alloc: Global,
    name: &'a Name,
    attributes: &[Attribute],
) -> Result<(), Memory>
    ensures { OnOk result (AddsAll sets.old sets.new (map (λ attribute. spec.key_over attribute (name.now.text ∷ []) None) (filter spec.is_key attributes.now))) }
{
    let names = [name.text.as_str()];
    for attribute in attributes {
        add_where_key(sets, alloc, attribute, &names)?;
    }
    Ok(())
}

/// Adds the key that an attribute of a model makes.
fn add_block_key<'a>(
    sets: &mut HashSet<FieldSet<'a>>,
    alloc: Global,
    attribute: &'a Attribute,
) -> Result<(), Memory>
    ensures { OnOk result (AddsAll sets.old sets.new (map (λ attribute. spec.key_over attribute (given_names (codes "fields") true attribute) (given_text (codes "name") false attribute)) (filter spec.is_key (attribute.now ∷ [])))) }
{
    let names = given_names(alloc, attribute, "fields", true)?;
    add_where_key(sets, alloc, attribute, names.as_slice())?;
    Ok(())
}

/// Adds the keys that an entry makes.
fn add_keys_in<'a>(
    sets: &mut HashSet<FieldSet<'a>>,
    alloc: Global,
    entry: &'a Entry,
) -> Result<(), Memory>
    ensures { OnOk result (AddsAll sets.old sets.new (spec.keys_in entry.now)) }
{
    match entry {
        Entry::Setting { .. } => Ok(()),
        Entry::Member { .. } => Ok(()),
        Entry::Field {
            name,
            attributes,
            ..
        } => {
            add_field_keys(sets, alloc, name, attributes.as_slice())?;
            Ok(())
        }
        Entry::Block { attribute, .. } => {
            add_block_key(sets, alloc, attribute)?;
            Ok(())
        }
    }
}

/// The keys of a model, each as the set of its fields.
fn sets_of<'a>(alloc: Global, model: &'a Block) -> Result<HashSet<FieldSet<'a>>, Memory>
    ensures { IfOk result (λ sets. Keeps sets (spec.keys_of model.now)) }
{
    let mut sets = HashSet::new(alloc);
    for entry in model.entries.as_slice() {
        add_keys_in(&mut sets, alloc, entry)?;
    }
    Ok(sets)
}

impl<'a> KeySets<'a> {
    pub fn of(alloc: Global, model: &'a Block) -> Result<KeySets<'a>, Memory>
        ensures { IfOk result (λ keys. keys ≡ model.now) }
    {
        let sets = sets_of(alloc, model)?;
        Ok(KeySets { model, sets })
    }

    /// Whether these are the fields of one of the keys, in any order.
    pub fn has(&self, alloc: Global, names: &[&'a str]) -> Result<bool, Memory>
        ensures { IfOk result (λ has. has ≡ spec.is_key_of self.now (map (λ name. name.now) names.now)) }
    {
        let set = set_of(alloc, names)?;
        Ok(self.sets.contains(&set))
    }
}
