//! The names of a tree's types, to look up.
ghost use Rattle.std.specs.Prelude.{◌≡◌, IfOk, bytes_eq};
ghost use Rattle.std.specs.List.{list_any};
ghost use Rattle.psl_rules.specs.Parts.{blocks_of};
ghost use Rattle.psl_rules.specs.Known.{Holds};
ghost use Rattle.psl_rules.specs.Names as spec;

use crate::parts::blocks_of;
use indexmap::IndexSet;
use psl_text::{Tree, Word};
use qe_text::{Memory, Text};
use std::alloc::Global;
use std::marker::Model;

/// A tree, with the names of its models and enums to look up.
#[derive(Drop)]
pub struct Types<'a> {
    tree: &'a Tree,
    models: IndexSet<&'a str>,
    enums: IndexSet<&'a str>,
}

impl<'a> Model for Types<'a> {
    ghost use Rattle.psl_text.specs.declared.tree.Tree.{Tree};
    ghost use Rattle.psl_rules.specs.Known.{Holds};
    ghost use Rattle.psl_rules.specs.Names.{names_model, names_enum};
    ghost use Rattle.psl_text.specs.contracts.tree.Term as term;
    ghost use Rattle.std.specs.Coded.{codes};

    ghost Value = { Tree };

    ghost coded = { Prim.hlevel (codes, term.the_row.coded) };

    ghost view = { λ t. t.tree.now };

    ghost invariant = { λ t. Holds t.models.keys (names_model t.tree.now) × Holds t.enums.keys (names_enum t.tree.now) };
}

/// The names of the blocks that begin with a word.
fn names_after(alloc: Global, tree: &Tree, word: Word) -> Result<IndexSet<&str>, Memory>
    ensures { IfOk result (λ names. Holds names.keys (λ name. list_any (λ block. bytes_eq name block.name.text) (blocks_of word tree.now))) }
{
    let mut names = IndexSet::new(alloc);
    for block in blocks_of(alloc, tree, word)?.as_slice() {
        names.insert(block.name.text.as_str())?;
    }
    Ok(names)
}

impl<'a> Types<'a> {
    pub fn of(alloc: Global, tree: &'a Tree) -> Result<Types<'a>, Memory>
        ensures { IfOk result (λ types. types ≡ tree.now) }
    {
        let models = names_after(alloc, tree, Word::Model)?;
        let enums = names_after(alloc, tree, Word::Enum)?;
        Ok(Types {
            tree,
            models,
            enums,
        })
    }

    pub fn is_model(&self, name: &Text) -> bool
        ensures { result ≡ spec.names_model self.now name.now }
    {
        self.models.contains(name.as_str())
    }

    pub fn is_enum(&self, name: &Text) -> bool
        ensures { result ≡ spec.names_enum self.now name.now }
    {
        self.enums.contains(name.as_str())
    }

    pub fn tree(&self) -> &'a Tree
        ensures { result.now ≡ self.now }
    {
        self.tree
    }
}
