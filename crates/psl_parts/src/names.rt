//! Names of fields and members, and names to look up.
ghost use Rattle.std.specs.Prelude.{◌≡◌, IfOk, map};
ghost use Rattle.qe_text.specs.Lists.{is_among};
ghost use Rattle.psl_rules.specs.Known.{Holds};
ghost use Rattle.psl_rules.specs.Names as spec;

use indexmap::IndexSet;
use psl_text::{Block, Entry, Name};
use qe_text::Memory;
use std::alloc::Global;
use std::marker::Model;

/// The names of a model's fields, in text order.
pub fn field_names(alloc: Global, model: &Block) -> Result<Vec<&Name>, Memory>
    ensures { IfOk result (λ names. map (λ name. name.now) names.items ≡ spec.field_names model.now) }
{
    let mut names = Vec::new(alloc);
    for entry in model.entries.as_slice() {
        if let Entry::Field { name, .. } = entry {
            names.push(name)?;
        }
    }
    Ok(names)
}

/// The names of an enum's members, in text order.
pub fn member_names(alloc: Global, enumeration: &Block) -> Result<Vec<&Name>, Memory>
    ensures { IfOk result (λ names. map (λ name. name.now) names.items ≡ spec.member_names enumeration.now) }
{
    let mut names = Vec::new(alloc);
    for entry in enumeration.entries.as_slice() {
        if let Entry::Member { name, .. } = entry {
            names.push(name)?;
        }
    }
    Ok(names)
}

/// Names to look up.
#[derive(Drop)]
pub struct NameSet<'a> {
    all: Vec<&'a str>,
    texts: IndexSet<&'a str>,
}

impl<'a> Model for NameSet<'a> {
    ghost use Rattle.std.specs.Prelude.{List, map};
    ghost use Rattle.qe_text.specs.Lists.{is_among};
    ghost use Rattle.psl_rules.specs.Parts.{Spelling};
    ghost use Rattle.psl_rules.specs.Known.{Holds};

    ghost Value = { List Spelling };

    ghost view = { λ n. map (λ name. name.now) n.all.items };

    ghost invariant = { λ n. Holds n.texts.keys (λ text. is_among text (map (λ name. name.now) n.all.items)) };
}

/// The names as a set.
fn texts_of<'a>(alloc: Global, names: &[&'a str]) -> Result<IndexSet<&'a str>, Memory>
    ensures { IfOk result (λ texts. Holds texts.keys (λ text. is_among text (map (λ name. name.now) names.now))) }
{
    let mut texts = IndexSet::new(alloc);
    for name in names {
        texts.insert(*name)?;
    }
    Ok(texts)
}

impl<'a> NameSet<'a> {
    pub fn of(alloc: Global, all: Vec<&'a str>) -> Result<NameSet<'a>, Memory>
        ensures { IfOk result (λ names. names ≡ map (λ name. name.now) all.entry.items) }
    {
        let texts = texts_of(alloc, all.as_slice())?;
        Ok(NameSet { all, texts })
    }

    /// Whether a name is one of these.
    pub fn has(&self, name: &str) -> bool
        ensures { result ≡ is_among name.now self.now }
    {
        self.texts.contains(name)
    }
}
