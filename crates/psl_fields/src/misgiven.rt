//! Whether attributes have the arguments that they take.
ghost use Rattle.std.specs.Prelude.{◌≡◌, [], ◌∷◌, ◌++◌};
ghost use Rattle.std.specs.List.{flat_map, filter_map};
ghost use Rattle.psl_rules.specs.Parts.{first, field_of, block_attribute_of};
ghost use Rattle.psl_rules.specs.Arguments.{field_parameters, model_parameters};
ghost use Rattle.psl_rules.specs.Attributes as spec;

use crate::arguments::{fit_on_field, fit_on_model};
use psl_parts::{earlier, noted};
use psl_text::{Attribute, Block, Entry, Tree, Word};

fn misgiven_on_field(attributes: &[Attribute]) -> Option<usize>
    ensures { result ≡ first (spec.misgiven field_parameters attributes.now) }
{
    let mut found = None;
    for attribute in attributes {
        let is_right = fit_on_field(attribute);
        found = noted(found, !is_right, attribute.name.at);
    }
    found
}

fn misgiven_at_entry(entry: &Entry) -> Option<usize>
    ensures { result ≡ first (flat_map (λ field. spec.misgiven field_parameters field.attributes) (filter_map field_of (entry.now ∷ [])) ++ spec.misgiven model_parameters (filter_map block_attribute_of (entry.now ∷ []))) }
{
    match entry {
        Entry::Field { attributes, .. } => misgiven_on_field(attributes.as_slice()),
        Entry::Block { attribute, .. } => {
            noted(None, !fit_on_model(attribute), attribute.name.at)
        }
        Entry::Setting { .. } | Entry::Member { .. } => None,
    }
}

fn misgiven_in_model(model: &Block) -> Option<usize>
    ensures { result ≡ first (spec.misgiven_in_model model.now) }
{
    let mut found = None;
    for entry in model.entries.as_slice() {
        let here = misgiven_at_entry(entry);
        found = earlier(found, here);
    }
    found
}

#[tactic(auto, unfolding(psl_rules::specs::Parts::same_word))]
fn misgiven_in_block(block: &Block) -> Option<usize>
    ensures { result ≡ first (spec.arguments_are_right (record { blocks = block.now ∷ []; length = 0 })) }
{
    match block.word {
        Word::Model => misgiven_in_model(block),
        Word::Datasource | Word::Generator | Word::Enum => None,
    }
}

/// Rule V10: each attribute has the arguments that it takes. Broken at its name.
pub fn arguments_are_right(tree: &Tree) -> Option<usize>
    ensures { result ≡ first (spec.arguments_are_right tree.now) }
{
    let mut found = None;
    for block in tree.blocks.as_slice() {
        let here = misgiven_in_block(block);
        found = earlier(found, here);
    }
    found
}
