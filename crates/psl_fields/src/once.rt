//! Attributes that stand more than once.
ghost use Rattle.std.specs.Prelude.{◌≡◌, [], ◌∷◌, map, filter, IfOk, bytes_eq, ◌||◌, codes};
ghost use Rattle.std.specs.List.{flat_map, filter_map};
ghost use Rattle.psl_rules.specs.Parts.{first, fields, field_of, block_attributes};
ghost use Rattle.psl_rules.specs.Attributes as spec;

use psl_parts::{earlier, first_repeat};
use psl_text::{Attribute, Block, Entry, Name, Tree, Word};
use qe_text::Memory;
use std::alloc::Global;

fn names_of(alloc: Global, attributes: &[Attribute]) -> Result<Vec<&Name>, Memory>
    ensures { IfOk result (λ names. map (λ name. name.now) names.items ≡ map (λ attribute. attribute.name) attributes.now) }
{
    let mut names = Vec::new(alloc);
    for attribute in attributes {
        names.push(&attribute.name)?;
    }
    Ok(names)
}

/// The first attribute that one before it has the name of.
#[tactic(auto, using(crate::proofs::Twice::by_names))]
fn repeated(alloc: Global, attributes: &[Attribute]) -> Result<Option<usize>, Memory>
    ensures { IfOk result (λ found. found ≡ first (spec.repeated attributes.now)) }
{
    let names = names_of(alloc, attributes)?;
    first_repeat(alloc, names.as_slice())
}

fn repeated_at_entry(alloc: Global, entry: &Entry) -> Result<Option<usize>, Memory>
    ensures { IfOk result (λ found. found ≡ first (flat_map (λ field. spec.repeated field.attributes) (filter_map field_of (entry.now ∷ [])))) }
{
    match entry {
        Entry::Field { attributes, .. } => repeated(alloc, attributes.as_slice()),
        Entry::Setting { .. } | Entry::Member { .. } | Entry::Block { .. } => Ok(None),
    }
}

fn repeated_on_fields(alloc: Global, model: &Block) -> Result<Option<usize>, Memory>
    ensures { IfOk result (λ found. found ≡ first (flat_map (λ field. spec.repeated field.attributes) (fields model.now))) }
{
    let mut found = None;
    for entry in model.entries.as_slice() {
        let here = repeated_at_entry(alloc, entry)?;
        found = earlier(found, here);
    }
    Ok(found)
}

fn stands_once(attribute: &Attribute) -> bool
    ensures { result ≡ spec.stands_once attribute.now }
{
    let name = &attribute.name.text;
    name.is_same("id") || name.is_same("map")
}

/// The names of a model's attributes that it may have once.
fn lone_names(alloc: Global, model: &Block) -> Result<Vec<&Name>, Memory>
    ensures { IfOk result (λ names. map (λ name. name.now) names.items ≡ map (λ attribute. attribute.name) (filter spec.stands_once (block_attributes model.now))) }
{
    let mut names = Vec::new(alloc);
    for entry in model.entries.as_slice() {
        match entry {
            Entry::Block { attribute, .. } => {
                if stands_once(attribute) {
                    names.push(&attribute.name)?;
                }
            }
            Entry::Setting { .. } | Entry::Member { .. } | Entry::Field { .. } => {}
        }
    }
    Ok(names)
}

#[tactic(auto, using(crate::proofs::Twice::by_names, psl_parts::proofs::Firsts::first_append))]
fn repeated_in_model(alloc: Global, model: &Block) -> Result<Option<usize>, Memory>
    ensures { IfOk result (λ found. found ≡ first (spec.repeated_in_model model.now)) }
{
    let on_fields = repeated_on_fields(alloc, model)?;
    let names = lone_names(alloc, model)?;
    let on_model = first_repeat(alloc, names.as_slice())?;
    Ok(earlier(on_fields, on_model))
}

#[tactic(auto, unfolding(psl_rules::specs::Parts::same_word))]
fn repeated_in_block(alloc: Global, block: &Block) -> Result<Option<usize>, Memory>
    ensures { IfOk result (λ found. found ≡ first (spec.attributes_stand_once (record { blocks = block.now ∷ []; length = 0 }))) }
{
    match block.word {
        Word::Model => repeated_in_model(alloc, block),
        Word::Datasource | Word::Generator | Word::Enum => Ok(None),
    }
}

/// Rule V9: no field has an attribute twice, and no model has `@@id` or `@@map` twice. Broken at the
/// later name.
pub fn attributes_stand_once(alloc: Global, tree: &Tree) -> Result<Option<usize>, Memory>
    ensures { IfOk result (λ found. found ≡ first (spec.attributes_stand_once tree.now)) }
{
    let mut found = None;
    for block in tree.blocks.as_slice() {
        let here = repeated_in_block(alloc, block)?;
        found = earlier(found, here);
    }
    Ok(found)
}
