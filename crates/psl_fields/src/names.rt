//! The names of models, enums, fields and members.
ghost use Rattle.std.specs.Prelude.{◌≡◌, IfOk, map, not, bytes_eq};
ghost use Rattle.std.specs.List.{list_any};
ghost use Rattle.psl_rules.specs.Parts.{first, place, failing};
ghost use Rattle.psl_rules.specs.Names as spec;

use psl_parts::{blocks_of, earlier, field_names, first_repeat, member_names, noted};
use psl_text::{Block, Name, Tree, Word};
use qe_text::Memory;
use std::alloc::Global;

const RESERVED_NAMES: [&str; 10] = [
    "String",
    "Boolean",
    "Int",
    "BigInt",
    "Float",
    "Decimal",
    "DateTime",
    "Json",
    "Bytes",
    "Unsupported",
];

const FILTER_NAMES: [&str; 3] = ["AND", "OR", "NOT"];

/// Whether a name is one of these words.
pub fn is_among(name: &Name, words: &[&str]) -> bool
    ensures { result ≡ list_any (λ word. bytes_eq name.now.text word.now) words.now }
{
    words.iter().any(|word| name.text.is_same(word))
}

/// The first place of a name that is one of these words.
fn first_among(names: &[&Name], words: &[&str]) -> Option<usize>
    ensures { result ≡ first (failing (λ name. not (list_any (λ word. bytes_eq name.text word.now) words.now)) place (map (λ name. name.now) names.now)) }
{
    let mut found = None;
    for name in names {
        found = noted(found, is_among(name, words), name.at);
    }
    found
}

/// Rule V4: the names of models and enums differ, and none is the name of a type. Broken at the later
/// name, and at a type's name.
#[tactic(auto, using(psl_parts::proofs::Firsts::first_append))]
pub fn type_names_are_distinct(alloc: Global, tree: &Tree) -> Result<Option<usize>, Memory>
    ensures { IfOk result (λ found. found ≡ first (spec.type_names_are_distinct tree.now)) }
{
    let names = type_names(alloc, tree)?;
    let names = names.as_slice();
    let repeated = first_repeat(alloc, names)?;
    Ok(earlier(first_among(names, &RESERVED_NAMES), repeated))
}

/// The names of models and enums, in text order.
#[tactic(auto, unfolding(psl_rules::specs::Parts::same_word))]
fn type_names(alloc: Global, tree: &Tree) -> Result<Vec<&Name>, Memory>
    ensures { IfOk result (λ names. map (λ name. name.now) names.items ≡ spec.type_names tree.now) }
{
    let mut names = Vec::new(alloc);
    for block in tree.blocks.as_slice() {
        if block.word == Word::Model || block.word == Word::Enum {
            names.push(&block.name)?;
        }
    }
    Ok(names)
}

/// The first place in a model that breaks the rule on names.
#[tactic(auto, using(psl_parts::proofs::Firsts::first_append))]
fn broken_fields(alloc: Global, model: &Block) -> Result<Option<usize>, Memory>
    ensures { IfOk result (λ found. found ≡ first (spec.repeated_fields model.now)) }
{
    let names = field_names(alloc, model)?;
    let names = names.as_slice();
    let repeated = first_repeat(alloc, names)?;
    Ok(earlier(first_among(names, &FILTER_NAMES), repeated))
}

/// The same in an enum.
fn broken_members(alloc: Global, enumeration: &Block) -> Result<Option<usize>, Memory>
    ensures { IfOk result (λ found. found ≡ first (spec.repeated_members enumeration.now)) }
{
    let names = member_names(alloc, enumeration)?;
    let missing = if names.is_empty() {
        Some(enumeration.name.at)
    } else {
        None
    };
    Ok(earlier(missing, first_repeat(alloc, names.as_slice())?))
}

/// Rule V5: the fields of a model have different names, and none is a filter's; an enum has members,
/// with different names. Broken at the later name, at a filter's name, and at the name of an enum without
/// members.
#[tactic(auto, using(psl_parts::proofs::Firsts::first_append, psl_parts::proofs::Firsts::earlier_assoc))]
pub fn field_names_are_distinct(alloc: Global, tree: &Tree) -> Result<Option<usize>, Memory>
    ensures { IfOk result (λ found. found ≡ first (spec.field_names_are_distinct tree.now)) }
{
    let mut found = None;
    for model in blocks_of(alloc, tree, Word::Model)?.as_slice() {
        found = earlier(found, broken_fields(alloc, model)?);
    }
    for enumeration in blocks_of(alloc, tree, Word::Enum)?.as_slice() {
        found = earlier(found, broken_members(alloc, enumeration)?);
    }
    Ok(found)
}
