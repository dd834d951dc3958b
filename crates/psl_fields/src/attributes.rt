//! Which attributes stand where, and how often.
ghost use Rattle.std.specs.Prelude.{◌≡◌, [], ◌∷◌, ◌++◌, map};
ghost use Rattle.std.specs.List.{flat_map, filter_map};
ghost use Rattle.psl_rules.specs.Parts.{first, field_of, member_of, block_attribute_of};
ghost use Rattle.psl_rules.specs.Attributes as spec;

use crate::names::is_among;
use psl_parts::{earlier, noted};
use psl_text::{Attribute, Block, Entry, Tree, Word};

const FIELD_ATTRIBUTES: [&str; 6] = ["id", "unique", "default", "relation", "map", "updatedAt"];

const MODEL_ATTRIBUTES: [&str; 4] = ["id", "unique", "index", "map"];

/// The first of the attributes that have none of these names.
fn unknown(names: &[&str], attributes: &[Attribute]) -> Option<usize>
    ensures { result ≡ first (spec.unknown (map (λ name. name.now) names.now) attributes.now) }
{
    let mut found = None;
    for attribute in attributes {
        let is_known = is_among(&attribute.name, names);
        found = noted(found, !is_known, attribute.name.at);
    }
    found
}

fn unknown_at_model_entry(entry: &Entry) -> Option<usize>
    ensures { result ≡ first (flat_map (λ field. spec.unknown spec.field_attribute_names field.attributes) (filter_map field_of (entry.now ∷ [])) ++ spec.unknown spec.model_attribute_names (filter_map block_attribute_of (entry.now ∷ []))) }
{
    match entry {
        Entry::Field { attributes, .. } => unknown(&FIELD_ATTRIBUTES, attributes.as_slice()),
        Entry::Block { attribute, .. } => {
            unknown(&MODEL_ATTRIBUTES, std::slice::from_ref(attribute))
        }
        Entry::Setting { .. } | Entry::Member { .. } => None,
    }
}

fn unknown_at_enum_entry(entry: &Entry) -> Option<usize>
    ensures { result ≡ first (flat_map (λ member. spec.unknown [] member.attributes) (filter_map member_of (entry.now ∷ [])) ++ spec.unknown [] (filter_map block_attribute_of (entry.now ∷ []))) }
{
    match entry {
        Entry::Member { attributes, .. } => unknown(&[], attributes.as_slice()),
        Entry::Block { attribute, .. } => Some(attribute.name.at),
        Entry::Setting { .. } | Entry::Field { .. } => None,
    }
}

fn unknown_in_model(model: &Block) -> Option<usize>
    ensures { result ≡ first (spec.unknown_in_model model.now) }
{
    let mut found = None;
    for entry in model.entries.as_slice() {
        let here = unknown_at_model_entry(entry);
        found = earlier(found, here);
    }
    found
}

fn unknown_in_enum(block: &Block) -> Option<usize>
    ensures { result ≡ first (spec.unknown_in_enum block.now) }
{
    let mut found = None;
    for entry in block.entries.as_slice() {
        let here = unknown_at_enum_entry(entry);
        found = earlier(found, here);
    }
    found
}

#[tactic(auto, unfolding(psl_rules::specs::Parts::same_word))]
fn unknown_in_block(block: &Block) -> Option<usize>
    ensures { result ≡ first (spec.attributes_are_known (record { blocks = block.now ∷ []; length = 0 })) }
{
    match block.word {
        Word::Model => unknown_in_model(block),
        Word::Enum => unknown_in_enum(block),
        Word::Datasource | Word::Generator => None,
    }
}

/// Rule V8: fields and models have attributes of known names alone, enums and members have none. Broken
/// at the attribute's name.
pub fn attributes_are_known(tree: &Tree) -> Option<usize>
    ensures { result ≡ first (spec.attributes_are_known tree.now) }
{
    let mut found = None;
    for block in tree.blocks.as_slice() {
        let here = unknown_in_block(block);
        found = earlier(found, here);
    }
    found
}
