//! Types of fields, and the columns of a model.
ghost use Rattle.std.specs.Prelude.{◌≡◌, ◌&&◌, IfOk, map, filter, bytes_eq, option_to_list};
ghost use Rattle.std.specs.List.{list_any, list_all};
ghost use Rattle.qe_text.specs.Lists.{is_among};
ghost use Rattle.psl_rules.specs.Parts.{fields, field_of};
ghost use Rattle.psl_rules.specs.Names as names;
ghost use Rattle.psl_rules.specs.Attributes as spec;

use crate::arguments::is_among;
use crate::names::NameSet;
use crate::repeats::stand_once;
use crate::types::Types;
use psl_text::{Block, Entry, Name, Tree};
use qe_text::{Memory, Text};
use std::alloc::Global;
use std::marker::Model;

/// The types of single values.
const SCALAR_NAMES: [&str; 6] = ["String", "Boolean", "Int", "BigInt", "DateTime", "Bytes"];

/// Whether a type is one of single values.
pub fn is_scalar(kind: &Name) -> bool
    ensures { result ≡ is_among kind.now.text names.scalar_names }
{
    is_among(kind.text.as_str(), &SCALAR_NAMES)
}

/// Whether a type is a scalar or an enum.
pub fn is_value_type(types: &Types, kind: &Text) -> bool
    ensures { result ≡ names.is_value_type types.now kind.now }
{
    is_among(kind.as_str(), &SCALAR_NAMES) || types.is_enum(kind)
}

/// A model of a tree, with the names of its columns to look up.
#[derive(Drop)]
pub struct Columns<'a> {
    tree: &'a Tree,
    model: &'a Block,
    names: NameSet<'a>,
}

impl<'a> Model for Columns<'a> {
    ghost use Rattle.std.specs.Prelude.{◌≡◌};
    ghost use Rattle.psl_text.specs.declared.tree.Tree.{Tree};
    ghost use Rattle.psl_text.specs.declared.tree.Block.{Block};
    ghost use Rattle.qe_text.specs.Lists.{is_among};
    ghost use Rattle.psl_rules.specs.Parts.{Spelling};
    ghost use Rattle.psl_rules.specs.Attributes.{names_column};
    ghost use Rattle.psl_text.specs.contracts.tree.Term as term;
    ghost use Rattle.std.specs.Coded.{codes};

    ghost Value = { Tree × Block };

    ghost coded = { Prim.hlevel (codes, term.the_row.coded) };

    ghost view = { λ c. (c.tree.now, c.model.now) };

    ghost invariant = { λ c. (name : Spelling) → is_among name c.names ≡ names_column c.tree.now c.model.now name };
}

/// The names of a model's columns, in text order.
fn column_names<'a>(alloc: Global, types: &Types, model: &'a Block) -> Result<Vec<&'a str>, Memory>
    ensures { IfOk result (λ found. map (λ name. name.now) found.items ≡ map (λ field. field.name.text) (filter (names.is_column types.now) (fields model.now))) }
{
    let mut found = Vec::new(alloc);
    for entry in model.entries.as_slice() {
        if let Entry::Field { name, kind, .. } = entry {
            if is_value_type(types, &kind.text) {
                found.push(name.text.as_str())?;
            }
        }
    }
    Ok(found)
}

impl<'a> Columns<'a> {
    pub fn of(alloc: Global, types: &Types<'a>, model: &'a Block) -> Result<Columns<'a>, Memory>
        ensures { IfOk result (λ columns. columns ≡ (types.now, model.now)) }
    {
        let names = NameSet::of(alloc, column_names(alloc, types, model)?)?;
        Ok(Columns {
            tree: types.tree(),
            model,
            names,
        })
    }

    fn has(&self, name: &str) -> bool
        ensures { result ≡ spec.names_column self.now.0 self.now.1 name.now }
    {
        self.names.has(name)
    }

    fn has_all(&self, names: &[&str]) -> bool
        ensures { result ≡ list_all (spec.names_column self.now.0 self.now.1) (map (λ name. name.now) names.now) }
    {
        for name in names {
            if !self.has(name) {
                return false;
            }
        }
        true
    }

    /// Whether these are names of columns of the model, one at least, none twice.
    pub fn are_named(&self, alloc: Global, names: &[&str]) -> Result<bool, Memory>
        ensures { IfOk result (λ holds. holds ≡ spec.name_columns self.now.0 self.now.1 (map (λ name. name.now) names.now)) }
    {
        let stand_once = stand_once(alloc, names)?;
        Ok(!names.is_empty() && stand_once && self.has_all(names))
    }
}

fn is_column_named(types: &Types, entry: &Entry, name: &str) -> bool
    ensures { result ≡ list_any (λ field. bytes_eq name.now field.name.text && names.is_column types.now field) (option_to_list (field_of entry.now)) }
{
    match entry {
        Entry::Setting { .. } => false,
        Entry::Member { .. } => false,
        Entry::Field {
            name: field,
            kind,
            ..
        } => name == field.text.as_str() && is_value_type(types, &kind.text),
        Entry::Block { .. } => false,
    }
}

/// Whether a column of the model has this name.
fn names_column(types: &Types, model: &Block, name: &str) -> bool
    ensures { result ≡ spec.names_column types.now model.now name.now }
{
    for entry in model.entries.as_slice() {
        if is_column_named(types, entry, name) {
            return true;
        }
    }
    false
}

fn are_columns(types: &Types, model: &Block, names: &[&str]) -> bool
    ensures { result ≡ list_all (spec.names_column types.now model.now) (map (λ name. name.now) names.now) }
{
    for name in names {
        if !names_column(types, model, name) {
            return false;
        }
    }
    true
}

fn are_distinct(names: &[&str]) -> bool
    ensures { result ≡ spec.are_distinct_names (map (λ name. name.now) names.now) }
{
    for number in 0..names.len() {
        if is_among(names[number], &names[..number]) {
            return false;
        }
    }
    true
}

/// Whether these are names of columns of the model, one at least, none twice.
pub fn name_columns(types: &Types, model: &Block, names: &[&str]) -> bool
    ensures { result ≡ spec.name_columns types.now model.now (map (λ name. name.now) names.now) }
{
    !names.is_empty() && are_distinct(names) && are_columns(types, model, names)
}
