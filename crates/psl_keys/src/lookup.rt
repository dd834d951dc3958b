//! The names of a model's fields, to look up.
ghost use Rattle.std.specs.Prelude.{◌≡◌, IfOk, map, bytes_eq};
ghost use Rattle.std.specs.List.{list_any};
ghost use Rattle.psl_rules.specs.Known.{Holds};
ghost use Rattle.psl_rules.specs.Keys as spec;

use indexmap::IndexSet;
use psl_parts::field_names;
use psl_text::{Block, Name};
use qe_text::{Memory, Text};
use std::alloc::Global;
use std::marker::Model;

/// A model, with the names of its fields to look up.
#[derive(Drop)]
pub struct FieldSet<'a> {
    model: &'a Block,
    names: IndexSet<&'a str>,
}

impl<'a> Model for FieldSet<'a> {
    ghost use Rattle.psl_text.specs.declared.tree.Block.{Block};
    ghost use Rattle.psl_rules.specs.Known.{Holds};
    ghost use Rattle.psl_rules.specs.Keys.{names_field};
    ghost use Rattle.psl_text.specs.contracts.tree.Term as term;
    ghost use Rattle.std.specs.Coded.{codes};

    ghost Value = { Block };

    ghost coded = { Prim.hlevel (codes, term.the_row.coded) };

    ghost view = { λ f. f.model.now };

    ghost invariant = { λ f. Holds f.names.keys (names_field f.model.now) };
}

/// The texts of these names.
fn texts_among<'a>(alloc: Global, names: &[&'a Name]) -> Result<IndexSet<&'a str>, Memory>
    ensures { IfOk result (λ texts. Holds texts.keys (λ text. list_any (λ name. bytes_eq text name.text) (map (λ name. name.now) names.now))) }
{
    let mut texts = IndexSet::new(alloc);
    for name in names {
        texts.insert(name.text.as_str())?;
    }
    Ok(texts)
}

impl<'a> FieldSet<'a> {
    pub fn of(alloc: Global, model: &'a Block) -> Result<FieldSet<'a>, Memory>
        ensures { IfOk result (λ fields. fields ≡ model.now) }
    {
        let all = field_names(alloc, model)?;
        let names = texts_among(alloc, all.as_slice())?;
        Ok(FieldSet { model, names })
    }

    /// Whether a field of the model has this name.
    pub fn has(&self, name: &Text) -> bool
        ensures { result ≡ spec.names_field self.now name.now }
    {
        self.names.contains(name.as_str())
    }
}
