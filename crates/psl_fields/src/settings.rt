//! One datasource with its settings, and a model.
ghost use Rattle.std.specs.Prelude.{◌≡◌, IfOk, map, is_some};
ghost use Rattle.psl_text.specs.declared.tree.Term.{out-Term};
ghost use Rattle.psl_text.specs.declared.tree.Argument.{out-Argument};
ghost use Rattle.std.specs.List.{flat_map};
ghost use Rattle.psl_rules.specs.Parts.{first, text_in};
ghost use Rattle.psl_rules.specs.Settings as spec;

use psl_parts::{blocks_of, earlier, first_repeat, noted};
use psl_text::{Argument, Block, Entry, Name, Term, Tree, Word};
use qe_text::Memory;
use std::alloc::Global;

/// The first of the places of the blocks' names.
fn first_name(blocks: &[&Block]) -> Option<usize>
    ensures { result ≡ first (map (λ block. block.now.name.at) blocks.now) }
{
    let mut found = None;
    for block in blocks {
        found = noted(found, true, block.name.at);
    }
    found
}

/// Rule V1: there is one datasource. Broken at the names of the others, or at the end of the text.
pub fn one_datasource(alloc: Global, tree: &Tree) -> Result<Option<usize>, Memory>
    ensures { IfOk result (λ found. found ≡ first (spec.one_datasource tree.now)) }
{
    let sources = blocks_of(alloc, tree, Word::Datasource)?;
    match sources.as_slice() {
        [] => Ok(Some(tree.length)),
        [_, others @ ..] => Ok(first_name(others)),
    }
}

fn is_text(value: &Term) -> bool
    ensures { result ≡ is_some (text_in value.now) }
{
    match value {
        Term::Text(_, _) => true,
        Term::Number(_, _) => false,
        Term::Name(_) => false,
        Term::Call(_, _) => false,
        Term::List(_, _) => false,
    }
}

/// Whether a value is this string.
fn is_this_text(value: &Term, text: &str) -> bool
    ensures { result ≡ spec.is_text text.now (text_in value.now) }
{
    match value {
        Term::Text(given, _) => given.is_same(text),
        Term::Number(_, _) => false,
        Term::Name(_) => false,
        Term::Call(_, _) => false,
        Term::List(_, _) => false,
    }
}

/// Whether these are the arguments of `env`: one string.
fn is_variable(arguments: &[Argument]) -> bool
    ensures { result ≡ spec.is_variable arguments.now }
{
    match arguments {
        [argument] => argument.name.is_none() && is_text(&argument.value),
        _ => false,
    }
}

fn is_url(value: &Term) -> bool
    ensures { result ≡ spec.is_url (out-Term value.now) }
{
    match value {
        Term::Text(_, _) => true,
        Term::Number(_, _) => false,
        Term::Name(_) => false,
        Term::Call(name, arguments) => {
            name.text.is_same("env") && is_variable(arguments.as_slice())
        }
        Term::List(_, _) => false,
    }
}

/// Whether a datasource may have this setting.
fn is_setting(name: &Name, value: &Term) -> bool
    ensures { result ≡ spec.is_setting (record { name = name.now; value = value.now }) }
{
    if name.text.is_same("provider") {
        is_this_text(value, "sqlite")
    } else if name.text.is_same("relationMode") {
        is_this_text(value, "prisma")
    } else {
        name.text.is_same("url") && is_url(value)
    }
}

/// The names of a block's settings, in text order.
fn setting_names(alloc: Global, block: &Block) -> Result<Vec<&Name>, Memory>
    ensures { IfOk result (λ names. map (λ name. name.now) names.items ≡ spec.setting_names block.now) }
{
    let mut names = Vec::new(alloc);
    for entry in block.entries.as_slice() {
        if let Entry::Setting { name, .. } = entry {
            names.push(name)?;
        }
    }
    Ok(names)
}

/// The place of a setting that a datasource may not have.
fn wrong_setting(entry: &Entry) -> Option<usize>
    ensures { result ≡ first (spec.wrong_setting entry.now) }
{
    match entry {
        Entry::Setting { name, value } => noted(None, !is_setting(name, value), name.at),
        Entry::Member { .. } => None,
        Entry::Field { .. } => None,
        Entry::Block { .. } => None,
    }
}

/// The first place of a setting that a datasource may not have.
fn first_wrong_setting(block: &Block) -> Option<usize>
    ensures { result ≡ first (flat_map spec.wrong_setting block.now.entries) }
{
    let mut found = None;
    for entry in block.entries.as_slice() {
        found = earlier(found, wrong_setting(entry));
    }
    found
}

fn is_setting_named(entry: &Entry, name: &str) -> bool
    ensures { result ≡ spec.is_setting_named name.now entry.now }
{
    match entry {
        Entry::Setting { name: called, .. } => called.text.is_same(name),
        Entry::Member { .. } => false,
        Entry::Field { .. } => false,
        Entry::Block { .. } => false,
    }
}

fn has_setting(name: &str, block: &Block) -> bool
    ensures { result ≡ spec.has_setting name.now block.now }
{
    block
        .entries
        .as_slice()
        .iter()
        .any(|entry| is_setting_named(entry, name))
}

/// The first place in a datasource that breaks the rule on settings.
#[tactic(auto, using(psl_parts::proofs::Firsts::first_append, psl_parts::proofs::Firsts::or_else_first))]
fn broken_settings(alloc: Global, block: &Block) -> Result<Option<usize>, Memory>
    ensures { IfOk result (λ found. found ≡ first (spec.broken_settings block.now)) }
{
    let names = setting_names(alloc, block)?;
    let repeated = first_repeat(alloc, names.as_slice())?;
    let wrong = earlier(first_wrong_setting(block), repeated);
    let is_whole = has_setting("provider", block) && has_setting("relationMode", block);
    Ok(wrong.or(noted(None, !is_whole, block.name.at)))
}

/// Rule V2: each datasource has `provider` and `relationMode` with their one value, may have `url`, and
/// has nothing else and nothing twice. Broken at the settings that are wrong, and where none is, at the
/// name of the block that lacks one.
pub fn settings_are_given(alloc: Global, tree: &Tree) -> Result<Option<usize>, Memory>
    ensures { IfOk result (λ found. found ≡ first (spec.settings_are_given tree.now)) }
{
    let mut found = None;
    for block in blocks_of(alloc, tree, Word::Datasource)?.as_slice() {
        found = earlier(found, broken_settings(alloc, block)?);
    }
    Ok(found)
}

/// Rule V3: there is a model. Broken at the end of the text.
pub fn has_a_model(alloc: Global, tree: &Tree) -> Result<Option<usize>, Memory>
    ensures { IfOk result (λ found. found ≡ first (spec.has_a_model tree.now)) }
{
    let models = blocks_of(alloc, tree, Word::Model)?;
    if models.is_empty() {
        Ok(Some(tree.length))
    } else {
        Ok(None)
    }
}
