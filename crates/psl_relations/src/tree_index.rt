//! The models of a tree, each with what is looked up in it.
ghost use Rattle.std.specs.Prelude.{◌≡◌, IfOk, map};
ghost use Rattle.psl_rules.specs.Parts as parts;

use crate::model_index::ModelIndex;
use psl_parts::{Types, blocks_of};
use psl_text::{Block, Word};
use qe_text::Memory;
use std::alloc::Global;
use std::marker::Model;

/// A tree, with its models, each with what is looked up in it.
#[derive(Drop)]
pub struct TreeIndex<'a> {
    types: &'a Types<'a>,
    all: Vec<ModelIndex<'a>>,
}

impl<'a> Model for TreeIndex<'a> {
    ghost use Rattle.std.specs.Prelude.{◌≡◌};
    ghost use Rattle.psl_text.specs.declared.tree.Tree.{Tree};
    ghost use Rattle.psl_rules.specs.Parts.{models};
    ghost use Rattle.psl_text.specs.contracts.tree.Term as term;
    ghost use Rattle.std.specs.Coded.{codes};

    ghost Value = { Tree };

    ghost coded = { Prim.hlevel (codes, term.the_row.coded) };

    ghost view = { λ m. m.types.now };

    ghost invariant = { λ m. m.all.items ≡ models m.types.now };
}

fn indexed<'a>(alloc: Global, blocks: &[&'a Block]) -> Result<Vec<ModelIndex<'a>>, Memory>
    ensures { IfOk result (λ all. all.items ≡ map (λ block. block.now) blocks.now) }
{
    let mut all = Vec::new(alloc);
    for block in blocks {
        all.push(ModelIndex::of(alloc, block)?)?;
    }
    Ok(all)
}

impl<'a> TreeIndex<'a> {
    pub fn of(alloc: Global, types: &'a Types<'a>) -> Result<TreeIndex<'a>, Memory>
        ensures { IfOk result (λ models. models ≡ types.now) }
    {
        let blocks = blocks_of(alloc, types.tree(), Word::Model)?;
        let all = indexed(alloc, blocks.as_slice())?;
        Ok(TreeIndex { types, all })
    }

    pub fn types(&self) -> &'a Types<'a>
        ensures { result.now ≡ self.now }
    {
        self.types
    }

    pub fn all(&self) -> &[ModelIndex<'a>]
        ensures { result.now ≡ parts.models self.now }
    {
        self.all.as_slice()
    }
}
