//! The enums of a tree, to look up by their names.
ghost use Rattle.std.specs.Prelude.{◌≡◌, IfOk, map, position, bytes_eq, option_copied};
ghost use Rattle.std.specs.List.{find};
ghost use Rattle.psl_rules.specs.Parts as parts;
ghost use Rattle.psl_sound.specs.SchemaOf as spec;

use crate::names::as_number;
use psl_parts::{Types, blocks_of, first_places};
use psl_text::{Block, Word};
use qe_text::Memory;
use std::alloc::Global;
use std::collections::HashMap;
use std::marker::Model;

/// A tree, with its enums and their places.
#[derive(Drop)]
pub struct Enums<'a> {
    types: &'a Types<'a>,
    blocks: Vec<&'a Block>,
    names: Vec<&'a str>,
    places: HashMap<&'a str, usize>,
}

impl<'a> Model for Enums<'a> {
    ghost use Rattle.std.specs.Prelude.{◌≡◌, map, position, bytes_eq};
    ghost use Rattle.std.specs.Borrow.{Bor};
    ghost use Rattle.std.specs.HashMap.{get_by};
    ghost use Rattle.psl_text.specs.declared.tree.Tree.{Tree};
    ghost use Rattle.psl_rules.specs.Parts.{Spelling, enums};
    ghost use Rattle.psl_sound.specs.SchemaOf.{block_name};
    ghost use Rattle.psl_text.specs.contracts.tree.Term as term;
    ghost use Rattle.std.specs.Coded.{codes};

    ghost Value = { Tree };

    ghost coded = { Prim.hlevel (codes, term.the_row.coded) };

    ghost view = { λ e. e.types.now };

    ghost invariant = { λ e. (map (λ block. block.now) e.blocks.items ≡ enums e.types.now) × (map (λ name. name.now) e.names.items ≡ map block_name (enums e.types.now)) × ((name : Bor Spelling) → get_by (λ key. bytes_eq name.now key.now) e.places ≡ position (λ other. bytes_eq name.now other.now) e.names.items) };
}

/// The names of these blocks.
fn names_of<'a>(alloc: Global, blocks: &[&'a Block]) -> Result<Vec<&'a str>, Memory>
    ensures { IfOk result (λ names. map (λ name. name.now) names.items ≡ map spec.block_name (map (λ block. block.now) blocks.now)) }
{
    let mut names = Vec::new(alloc);
    for block in blocks {
        names.push(block.name.text.as_str())?;
    }
    Ok(names)
}

impl<'a> Enums<'a> {
    pub fn of(alloc: Global, types: &'a Types<'a>) -> Result<Enums<'a>, Memory>
        ensures { IfOk result (λ enums. enums ≡ types.now) }
    {
        let blocks = blocks_of(alloc, types.tree(), Word::Enum)?;
        let names = names_of(alloc, blocks.as_slice())?;
        let places = first_places(alloc, names.as_slice())?;
        Ok(Enums {
            types,
            blocks,
            names,
            places,
        })
    }

    pub fn types(&self) -> &'a Types<'a>
        ensures { result.now ≡ self.now }
    {
        self.types
    }

    /// The place of the enum of this name.
    fn place(&self, name: &str) -> Option<usize>
        ensures { result ≡ position (bytes_eq name.now) (map spec.block_name (parts.enums self.now)) }
    {
        self.places.get(name).copied()
    }

    /// The number of the enum of this name, and 0 where there is none. Where 16 bits don't hold it there
    /// is no number, and the answer is `Memory`.
    pub fn number(&self, name: &str) -> Result<u16, Memory>
        ensures { IfOk result (λ number. number ≡ spec.enum_number self.now name.now) }
    {
        match self.place(name) {
            Some(at) => as_number(at),
            None => Ok(0),
        }
    }

    /// The enum of this name.
    pub fn named(&self, name: &str) -> Option<&'a Block>
        ensures { option_copied result ≡ find (λ block. bytes_eq name.now block.name.text) (parts.enums self.now) }
    {
        match self.place(name) {
            Some(at) => self.blocks.get(at).copied(),
            None => None,
        }
    }
}
