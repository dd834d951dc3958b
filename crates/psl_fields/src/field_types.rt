//! The types of fields.
ghost use Rattle.std.specs.Prelude.{◌≡◌, [], ◌∷◌, ◌||◌, not, filter};
ghost use Rattle.std.specs.List.{flat_map, filter_map};
ghost use Rattle.psl_text.specs.declared.tree.Word.TheVariants as word;
ghost use Rattle.psl_rules.specs.Parts.{first, failing, same_word, field_of};
ghost use Rattle.psl_rules.specs.Names as spec;

use psl_parts::{Types, earlier, is_value_type, noted};
use psl_text::{Block, Entry, Mark, Word};

fn is_many(mark: Mark) -> bool
    ensures { result ≡ spec.is_many mark }
{
    match mark {
        Mark::Many => true,
        Mark::One | Mark::Optional => false,
    }
}

fn unknown_at_entry(types: &Types, entry: &Entry) -> Option<usize>
    ensures { result ≡ first (failing (λ field. spec.is_column types.now field || spec.is_relation types.now field) spec.type_place (filter_map field_of (entry.now ∷ []))) }
{
    match entry {
        Entry::Field { kind, .. } => {
            let is_column = is_value_type(types, &kind.text);
            let is_known = is_column || types.is_model(&kind.text);
            noted(None, !is_known, kind.at)
        }
        Entry::Setting { .. } | Entry::Member { .. } | Entry::Block { .. } => None,
    }
}

fn unknown_in_model(types: &Types, model: &Block) -> Option<usize>
    ensures { result ≡ first (spec.unknown_types types.now model.now) }
{
    let mut found = None;
    for entry in model.entries.as_slice() {
        let here = unknown_at_entry(types, entry);
        found = earlier(found, here);
    }
    found
}

#[tactic(auto, unfolding(psl_rules::specs::Parts::same_word))]
fn unknown_in_block(types: &Types, block: &Block) -> Option<usize>
    ensures { result ≡ first (flat_map (spec.unknown_types types.now) (filter (λ block. same_word block.word word.Model) (block.now ∷ []))) }
{
    match block.word {
        Word::Model => unknown_in_model(types, block),
        Word::Datasource | Word::Generator | Word::Enum => None,
    }
}

/// Rule V6: each field's type is a scalar, an enum or a model. Broken at the type.
pub fn types_are_known(types: &Types) -> Option<usize>
    ensures { result ≡ first (spec.types_are_known types.now) }
{
    let mut found = None;
    for block in types.tree().blocks.as_slice() {
        let here = unknown_in_block(types, block);
        found = earlier(found, here);
    }
    found
}

fn other_list_at_entry(types: &Types, entry: &Entry) -> Option<usize>
    ensures { result ≡ first (failing (λ field. not (spec.is_many field.mark) || spec.is_relation types.now field) spec.type_place (filter_map field_of (entry.now ∷ []))) }
{
    match entry {
        Entry::Field { kind, mark, .. } => {
            let is_right = !is_many(*mark) || types.is_model(&kind.text);
            noted(None, !is_right, kind.at)
        }
        Entry::Setting { .. } | Entry::Member { .. } | Entry::Block { .. } => None,
    }
}

fn other_list_in_model(types: &Types, model: &Block) -> Option<usize>
    ensures { result ≡ first (spec.other_lists types.now model.now) }
{
    let mut found = None;
    for entry in model.entries.as_slice() {
        let here = other_list_at_entry(types, entry);
        found = earlier(found, here);
    }
    found
}

#[tactic(auto, unfolding(psl_rules::specs::Parts::same_word))]
fn other_list_in_block(types: &Types, block: &Block) -> Option<usize>
    ensures { result ≡ first (flat_map (spec.other_lists types.now) (filter (λ block. same_word block.word word.Model) (block.now ∷ []))) }
{
    match block.word {
        Word::Model => other_list_in_model(types, block),
        Word::Datasource | Word::Generator | Word::Enum => None,
    }
}

/// Rule V7: lists are of models alone. Broken at the type.
pub fn lists_are_of_models(types: &Types) -> Option<usize>
    ensures { result ≡ first (spec.lists_are_of_models types.now) }
{
    let mut found = None;
    for block in types.tree().blocks.as_slice() {
        let here = other_list_in_block(types, block);
        found = earlier(found, here);
    }
    found
}
