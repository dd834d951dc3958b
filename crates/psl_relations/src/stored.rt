//! The names under which tables and columns are stored.
ghost use Rattle.std.specs.Char.{to_ascii_lowercase};
ghost use Rattle.std.specs.Prelude.{◌≡◌, ◌==◌, ◌&&◌, ◌||◌, ◌++◌, IfOk, OnOk, map, filter, nat_lt, nat_le, unwrap_or, codes, true};
ghost use Rattle.std.specs.List.{list_any, flat_map, starts_with};
ghost use Rattle.std.specs.Str.{str_to_ascii_lowercase};
ghost use Rattle.qe_text.specs.Names.{is_stored_name};
ghost use Rattle.psl_rules.specs.Parts.{first, failing, place, models, block_attributes, given_text};
ghost use Rattle.qe_text.specs.Lists.{is_among};
ghost use Rattle.psl_rules.specs.Names.{scalar_names, names_enum};
ghost use Rattle.psl_rules.specs.Relations.{is_linked, relation_name};
ghost use Rattle.psl_rules.specs.Stored as spec;

use crate::relations::{Pair, ends, pairs};
use crate::tree_index::TreeIndex;
use psl_parts::{Types, blocks_of, earlier, first_repeat, given_text, is_called, is_scalar, noted};
use psl_text::{Attribute, Block, Entry, Name, Word};
use qe_text::{Memory, Text};
use std::alloc::Global;
use std::cmp::Ordering;

const NUL: u8 = 0;

const QUOTE: u8 = b'"';

#[tactic(auto, using(crate::proofs::Lowered::prefixed))]
fn begins_with(name: &[u8], low_prefix: &[u8]) -> bool
    requires { map to_ascii_lowercase low_prefix.now ≡ low_prefix.now }
    ensures { result ≡ starts_with (λ a b. a == b) (str_to_ascii_lowercase name.now) low_prefix.now }
{
    name.len() >= low_prefix.len() && name[..low_prefix.len()].eq_ignore_ascii_case(low_prefix)
}

fn is_stored_length(length: usize) -> bool
    ensures { result ≡ (nat_lt 0 length && nat_le length 128) }
{
    0 < length && length <= 128
}

fn has_nul_or_quote(bytes: &[u8]) -> bool
    ensures { result ≡ list_any (λ byte. byte == 0 || byte == 34) bytes.now }
{
    bytes.iter().any(|byte| *byte == NUL || *byte == QUOTE)
}

/// Whether the database can store this name.
fn is_stored_name(name: &str) -> bool
    ensures { result ≡ is_stored_name name.now }
{
    let bytes = name.as_bytes();
    is_stored_length(bytes.len())
        && !has_nul_or_quote(bytes)
        && !begins_with(bytes, b"sqlite_")
        && !begins_with(bytes, b"_qe_")
}

/// The name that this `@map` gives, or else the own one.
fn given_name<'a>(own: &'a Text, map: &'a Attribute) -> &'a str
    ensures { result.now ≡ unwrap_or (given_text (codes "name") true map.now) own.now }
{
    match given_text(map, "name", true) {
        Some(name) => name,
        None => own.as_str(),
    }
}

/// The name that `@map` gives a field, or else its own one.
fn mapped_field<'a>(own: &'a Text, attributes: &'a [Attribute]) -> &'a str
    ensures { result.now ≡ spec.mapped own.now attributes.now }
{
    for attribute in attributes {
        if is_called(attribute, "map") {
            return given_name(own, attribute);
        }
    }
    own.as_str()
}

/// The name that `@@map` gives a model, or else its own one.
pub fn mapped_model(model: &Block) -> &str
    ensures { result.now ≡ spec.mapped model.now.name.text (block_attributes model.now) }
{
    for entry in model.entries.as_slice() {
        if let Entry::Block { attribute, .. } = entry {
            if is_called(attribute, "map") {
                return given_name(&model.name.text, attribute);
            }
        }
    }
    model.name.text.as_str()
}

fn stored(alloc: Global, text: &str, at: usize) -> Result<Name, Memory>
    ensures { IfOk result (λ name. name ≡ spec.stored text.now at) }
{
    let text = Text::from_str(alloc, text)?;
    Ok(Name { text, at })
}

/// Appends the stored names of models.
fn push_models(alloc: Global, names: &mut Vec<Name>, types: &Types) -> Result<(), Memory>
    ensures { OnOk result (names.new.items ≡ names.old.items ++ map spec.stored_model (models types.now)) }
{
    for model in blocks_of(alloc, types.tree(), Word::Model)?.as_slice() {
        let name = stored(alloc, mapped_model(model), model.name.at)?;
        names.push(name)?;
    }
    Ok(())
}

/// Whether a field of this type has a value of its own.
fn is_column(types: &Types, kind: &Name) -> bool
    ensures { result ≡ (is_among kind.now.text scalar_names || names_enum types.now kind.now.text) }
{
    is_scalar(kind) || types.is_enum(&kind.text)
}

/// The stored names of a model's columns.
fn stored_columns(alloc: Global, types: &Types, model: &Block) -> Result<Vec<Name>, Memory>
    ensures { IfOk result (λ names. names.items ≡ spec.stored_columns types.now model.now) }
{
    let mut names = Vec::new(alloc);
    for entry in model.entries.as_slice() {
        if let Entry::Field {
            name,
            kind,
            attributes,
            ..
        } = entry
        {
            if is_column(types, kind) {
                let text = mapped_field(&name.text, attributes.as_slice());
                names.push(stored(alloc, text, name.at)?)?;
            }
        }
    }
    Ok(names)
}

fn lowered(alloc: Global, name: &Name) -> Result<Name, Memory>
    ensures { IfOk result (λ low. low ≡ spec.lowered name.now) }
{
    let text = name.text.as_str().to_ascii_lowercase(alloc)?;
    Ok(Name {
        text: Text::from_string(text),
        at: name.at,
    })
}

/// The names in lower-case letters.
fn all_lowered(alloc: Global, names: &[Name]) -> Result<Vec<Name>, Memory>
    ensures { IfOk result (λ low. low.items ≡ map spec.lowered names.now) }
{
    let mut low = Vec::new(alloc);
    for name in names {
        low.push(lowered(alloc, name)?)?;
    }
    Ok(low)
}

pub fn references(alloc: Global, names: &[Name]) -> Result<Vec<&Name>, Memory>
    ensures { IfOk result (λ references. map (λ name. name.now) references.items ≡ names.now) }
{
    let mut references = Vec::new(alloc);
    for name in names {
        references.push(name)?;
    }
    Ok(references)
}

/// The first place of a name that can't be stored.
fn first_unstorable(names: &[Name]) -> Option<usize>
    ensures { result ≡ first (failing (λ name. is_stored_name name.text) place names.now) }
{
    let mut found = None;
    for name in names {
        found = noted(found, !is_stored_name(name.text.as_str()), name.at);
    }
    found
}

/// The first place of a name that is like an earlier one, but for the case of its letters.
fn first_alike(alloc: Global, names: &[Name]) -> Result<Option<usize>, Memory>
    ensures { IfOk result (λ found. found ≡ first (map place (spec.alike names.now))) }
{
    let low = all_lowered(alloc, names)?;
    let references = references(alloc, low.as_slice())?;
    first_repeat(alloc, references.as_slice())
}

/// The first place of a name that can't be stored or is like an earlier one.
#[tactic(auto, using(psl_parts::proofs::Firsts::first_append))]
fn wrongly_stored(alloc: Global, names: &[Name]) -> Result<Option<usize>, Memory>
    ensures { IfOk result (λ found. found ≡ first (spec.wrongly_stored names.now)) }
{
    let alike = first_alike(alloc, names)?;
    Ok(earlier(first_unstorable(names), alike))
}

/// `_XToY`.
fn joined(alloc: Global, one: &str, other: &str) -> Result<Text, Memory>
    ensures { IfOk result (λ name. name ≡ codes "_" ++ one.now ++ codes "To" ++ other.now) }
{
    let mut name = String::from_str(alloc, "_")?;
    name.push_str(one)?;
    name.push_str("To")?;
    name.push_str(other)?;
    Ok(Text::from_string(name))
}

/// `_XToY` with the models' names in the order of their bytes.
fn models_joined(alloc: Global, one: &str, other: &str) -> Result<Text, Memory>
    ensures { IfOk result (λ name. name ≡ spec.models_joined one.now other.now) }
{
    match one.cmp(other) {
        Ordering::Less => joined(alloc, one, other),
        Ordering::Equal => joined(alloc, one, other),
        Ordering::Greater => joined(alloc, other, one),
    }
}

fn after_low_line(alloc: Global, name: &str) -> Result<Text, Memory>
    ensures { IfOk result (λ text. text ≡ codes "_" ++ name.now) }
{
    let mut text = String::from_str(alloc, "_")?;
    text.push_str(name)?;
    Ok(Text::from_string(text))
}

/// `_` and the relation's name, or the names of the models that are linked.
pub fn link_name(alloc: Global, pair: &Pair) -> Result<Text, Memory>
    ensures { IfOk result (λ name. name ≡ spec.link_name (relation_name pair.now.first) pair.now.first.model.name.text pair.now.second.model.name.text) }
{
    let first = pair.first();
    match first.relation_name() {
        Some(name) => after_low_line(alloc, name),
        None => {
            let one = first.model().name.text.as_str();
            models_joined(alloc, one, pair.second().model().name.text.as_str())
        }
    }
}

/// Appends the stored names of the link tables among these pairs.
fn push_links(alloc: Global, names: &mut Vec<Name>, pairs: &[Pair]) -> Result<(), Memory>
    ensures { OnOk result (names.new.items ≡ names.old.items ++ map spec.stored_link (filter is_linked pairs.now)) }
{
    for pair in pairs {
        if pair.is_linked() {
            let text = link_name(alloc, pair)?;
            names.push(Name {
                text,
                at: pair.place(),
            })?;
        }
    }
    Ok(())
}

/// The stored names of the tables: the models, then the link tables.
pub fn stored_tables<'a>(alloc: Global, models: &'a TreeIndex<'a>) -> Result<Vec<Name>, Memory>
    ensures { IfOk result (λ names. names.items ≡ spec.stored_tables models.now) }
{
    let ends = ends(alloc, models)?;
    let pairs = pairs(alloc, ends.as_slice())?;
    let mut names = Vec::new(alloc);
    push_models(alloc, &mut names, models.types())?;
    push_links(alloc, &mut names, pairs.as_slice())?;
    Ok(names)
}

/// The first place in a model's columns that breaks the rule on stored names.
fn wrong_columns(alloc: Global, types: &Types, model: &Block) -> Result<Option<usize>, Memory>
    ensures { IfOk result (λ found. found ≡ first (spec.wrongly_stored (spec.stored_columns types.now model.now))) }
{
    let columns = stored_columns(alloc, types, model)?;
    wrongly_stored(alloc, columns.as_slice())
}

/// The first of these places in all models.
fn first_wrong_column(alloc: Global, types: &Types) -> Result<Option<usize>, Memory>
    ensures { IfOk result (λ found. found ≡ first (flat_map (λ model. spec.wrongly_stored (spec.stored_columns types.now model)) (models types.now))) }
{
    let mut found = None;
    for model in blocks_of(alloc, types.tree(), Word::Model)?.as_slice() {
        found = earlier(found, wrong_columns(alloc, types, model)?);
    }
    Ok(found)
}

/// Rule V25: the stored names of tables, and those of a table's columns, can be stored and differ. Broken
/// at the name of the later model or field, for a link table at that of its pair's first field.
#[tactic(auto, using(psl_parts::proofs::Firsts::first_append))]
pub fn stored_names_are_distinct<'a>(
    alloc: Global,
    models: &'a TreeIndex<'a>,
) -> Result<Option<usize>, Memory>
    ensures { IfOk result (λ found. found ≡ first (spec.stored_names_are_distinct models.now)) }
{
    let tables = stored_tables(alloc, models)?;
    let wrong_table = wrongly_stored(alloc, tables.as_slice())?;
    let wrong_column = first_wrong_column(alloc, models.types())?;
    Ok(earlier(wrong_table, wrong_column))
}
