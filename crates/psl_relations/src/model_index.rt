//! A model, with its fields and keys to look up.
ghost use Rattle.std.specs.Prelude.{◌≡◌, ◌==◌, IfOk, OnOk, map, length, option_copied};
ghost use Rattle.psl_rules.specs.Parts.{fields};
ghost use Rattle.psl_rules.specs.Keys as keys;
ghost use Rattle.psl_rules.specs.Foreign as spec;

use crate::key_sets::KeySets;
use psl_keys::id_names;
use psl_parts::{Field, first_places};
use psl_text::{Block, Entry};
use qe_text::Memory;
use std::alloc::Global;
use std::collections::HashMap;
use std::marker::Model;

/// A model, with its fields to look up by their names, and its keys by their fields.
#[derive(Drop)]
pub struct ModelIndex<'a> {
    model: &'a Block,
    held: Vec<Field<'a>>,
    names: Vec<&'a str>,
    places: HashMap<&'a str, usize>,
    keys: KeySets<'a>,
    single: bool,
}

impl<'a> Model for ModelIndex<'a> {
    ghost use Rattle.std.specs.Prelude.{◌≡◌, ◌==◌, map, length, position};
    ghost use Rattle.std.specs.Borrow.{Bor};
    ghost use Rattle.std.specs.HashMap.{get};
    ghost use Rattle.psl_text.specs.declared.tree.Block.{Block};
    ghost use Rattle.psl_rules.specs.Parts.{Spelling, fields};
    ghost use Rattle.psl_rules.specs.Keys.{id_names};
    ghost use Rattle.psl_relations.specs.Back.{same_text};
    ghost use Rattle.psl_text.specs.contracts.tree.Term as term;
    ghost use Rattle.std.specs.Coded.{codes};

    ghost Value = { Block };

    ghost coded = { Prim.hlevel (codes, term.the_row.coded) };

    ghost view = { λ m. m.model.now };

    ghost invariant = { λ m. (m.held.items ≡ fields m.model.now) × (map (λ name. name.now) m.names.items ≡ map (λ field. field.name.text) (fields m.model.now)) × ((name : Bor Spelling) → get same_text m.places name ≡ position (same_text name) m.names.items) × (m.keys ≡ m.model.now) × (m.single ≡ (length (id_names m.model.now) == 1)) };
}

/// The fields of a model, in text order.
fn fields_of<'a>(alloc: Global, model: &'a Block) -> Result<Vec<Field<'a>>, Memory>
    ensures { IfOk result (λ found. found.items ≡ fields model.now) }
{
    let mut found = Vec::new(alloc);
    for entry in model.entries.as_slice() {
        if let Entry::Field {
            name,
            kind,
            mark,
            attributes,
            ..
        } = entry
        {
            found.push(Field {
                name,
                kind,
                mark: *mark,
                attributes: attributes.as_slice(),
            })?;
        }
    }
    Ok(found)
}

fn names_of<'a>(alloc: Global, fields: &[Field<'a>]) -> Result<Vec<&'a str>, Memory>
    ensures { IfOk result (λ names. map (λ name. name.now) names.items ≡ map (λ field. field.name.text) fields.now) }
{
    let mut names = Vec::new(alloc);
    for field in fields {
        names.push(field.name().text.as_str())?;
    }
    Ok(names)
}

fn copy_of<'a>(field: &Field<'a>) -> Field<'a>
    ensures { result ≡ field.now }
{
    Field {
        name: field.name,
        kind: field.kind,
        mark: field.mark,
        attributes: field.attributes,
    }
}

impl<'a> ModelIndex<'a> {
    pub fn of(alloc: Global, model: &'a Block) -> Result<ModelIndex<'a>, Memory>
        ensures { IfOk result (λ index. index ≡ model.now) }
    {
        let held = fields_of(alloc, model)?;
        let names = names_of(alloc, held.as_slice())?;
        let places = first_places(alloc, names.as_slice())?;
        let keys = KeySets::of(alloc, model)?;
        let ids = id_names(alloc, model)?;
        let single = ids.len() == 1;
        Ok(ModelIndex {
            model,
            held,
            names,
            places,
            keys,
            single,
        })
    }

    pub fn model(&self) -> &'a Block
        ensures { result.now ≡ self.now }
    {
        self.model
    }

    /// The first field of this name.
    fn field_named(&self, name: &str) -> Option<&Field<'a>>
        ensures { option_copied result ≡ spec.field_named self.now name.now }
    {
        match self.places.get(name) {
            Some(place) => self.held.as_slice().get(*place),
            None => None,
        }
    }

    /// The fields of these names, in their order.
    pub fn fields_named(&self, alloc: Global, names: &[&str]) -> Result<Vec<Field<'a>>, Memory>
        ensures { IfOk result (λ fields. fields.items ≡ spec.fields_named self.now (map (λ name. name.now) names.now)) }
    {
        let mut fields = Vec::new(alloc);
        for name in names {
            if let Some(field) = self.field_named(name) {
                fields.push(copy_of(field))?;
            }
        }
        Ok(fields)
    }

    /// Whether these are the fields of a key of the model, in any order.
    pub fn has_key(&self, alloc: Global, names: &[&'a str]) -> Result<bool, Memory>
        ensures { IfOk result (λ has. has ≡ keys.is_key_of self.now (map (λ name. name.now) names.now)) }
    {
        self.keys.has(alloc, names)
    }

    /// Whether the id of the model is of one field.
    pub fn has_single_id(&self) -> bool
        ensures { result ≡ (length (keys.id_names self.now) == 1) }
    {
        self.single
    }
}
