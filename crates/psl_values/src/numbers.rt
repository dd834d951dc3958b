//! The numbers of tables.
ghost use Rattle.std.specs.Prelude.{◌≡◌, ◌+◌, IfOk, map, length, position, bytes_eq};
ghost use Rattle.psl_rules.specs.Parts.{models};
ghost use Rattle.psl_sound.specs.SchemaOf as spec;

use psl_columns::{Enums, as_number};
use psl_parts::{Types, blocks_of, first_places};
use psl_text::{Block, Word};
use qe_base::TableId;
use qe_text::{Memory, Text};
use std::alloc::Global;
use std::collections::HashMap;
use std::marker::Model;

/// A tree, with the names of its models to number them, and its enums.
#[derive(Drop)]
pub struct Models<'t, 'a> {
    types: &'t Types<'a>,
    enums: Enums<'t>,
    names: Vec<&'a str>,
    places: HashMap<&'a str, usize>,
}

impl<'t, 'a> Model for Models<'t, 'a> {
    ghost use Rattle.std.specs.Prelude.{◌≡◌, map, position};
    ghost use Rattle.std.specs.Borrow.{Bor};
    ghost use Rattle.std.specs.HashMap.{get};
    ghost use Rattle.psl_text.specs.declared.tree.Tree.{Tree};
    ghost use Rattle.psl_rules.specs.Parts.{Spelling, models};
    ghost use Rattle.psl_relations.specs.Back.{same_text};
    ghost use Rattle.psl_sound.specs.SchemaOf.{block_name};
    ghost use Rattle.psl_text.specs.contracts.tree.Term as term;
    ghost use Rattle.std.specs.Coded.{codes};

    ghost Value = { Tree };

    ghost coded = { Prim.hlevel (codes, term.the_row.coded) };

    ghost view = { λ m. m.types.now };

    ghost invariant = { λ m. (m.enums ≡ m.types.now) × (map (λ name. name.now) m.names.items ≡ map block_name (models m.types.now)) × ((name : Bor Spelling) → get same_text m.places name ≡ position (same_text name) m.names.items) };
}

fn block_names<'a>(alloc: Global, blocks: &[&'a Block]) -> Result<Vec<&'a str>, Memory>
    ensures { IfOk result (λ names. map (λ name. name.now) names.items ≡ map spec.block_name (map (λ block. block.now) blocks.now)) }
{
    let mut names = Vec::new(alloc);
    for block in blocks {
        names.push(block.name.text.as_str())?;
    }
    Ok(names)
}

impl<'t, 'a> Models<'t, 'a> {
    pub fn of(alloc: Global, types: &'t Types<'a>) -> Result<Models<'t, 'a>, Memory>
        ensures { IfOk result (λ models. models ≡ types.now) }
    {
        let blocks = blocks_of(alloc, types.tree(), Word::Model)?;
        let names = block_names(alloc, blocks.as_slice())?;
        let places = first_places(alloc, names.as_slice())?;
        let enums = Enums::of(alloc, &*types)?;
        Ok(Models {
            types,
            enums,
            names,
            places,
        })
    }

    pub fn types(&self) -> &'t Types<'a>
        ensures { result.now ≡ self.now }
    {
        self.types
    }

    /// The enums of the tree.
    pub fn enums(&self) -> &Enums<'t>
        ensures { result.now ≡ self.now }
    {
        &self.enums
    }

    /// The place of the model of this name.
    fn place(&self, name: &Text) -> Option<usize>
        ensures { result ≡ position (bytes_eq name.now) (map spec.block_name (models self.now)) }
    {
        self.places.get(name.as_str()).copied()
    }

    /// The number of the model of this name, and 0 where there is none.
    pub fn number(&self, name: &Text) -> Result<TableId, Memory>
        ensures { IfOk result (λ table. table ≡ record { 0 = spec.model_number self.now name.now }) }
    {
        match self.place(name) {
            Some(at) => Ok(TableId(as_number(at)?)),
            None => Ok(TableId(0)),
        }
    }

    /// The number of a link table, which come behind the models.
    pub fn link(&self, number: usize) -> Result<TableId, Memory>
        ensures { IfOk result (λ table. table ≡ record { 0 = spec.link_number self.now number }) }
    {
        let before = self.names.len();
        if number < 65_536 && before < 65_536 {
            Ok(TableId(as_number(before + number)?))
        } else {
            Err(Memory)
        }
    }
}
