//! How many tables, fields and members there may be.
ghost use Rattle.std.specs.Prelude.{◌≡◌, IfOk, map};
ghost use Rattle.std.specs.List.{flat_map};
ghost use Rattle.psl_rules.specs.Parts.{first, models, enums};
ghost use Rattle.psl_rules.specs.Names.{field_names, member_names};
ghost use Rattle.psl_rules.specs.Stored as spec;

use crate::stored::{references, stored_tables};
use crate::tree_index::TreeIndex;
use psl_parts::{blocks_of, earlier, field_names, member_names};
use psl_text::{Block, Name, Tree, Word};
use qe_text::Memory;
use std::alloc::Global;

const MOST_TABLES: usize = 256;

const MOST_FIELDS: usize = 128;

const MOST_MEMBERS: usize = 1000;

/// The place of the first name behind so many.
#[tactic(auto, using(crate::proofs::Beyond::next_beyond, crate::proofs::Beyond::none_beyond))]
fn first_beyond(most: usize, names: &[&Name]) -> Option<usize>
    ensures { result ≡ first (spec.beyond most (map (λ name. name.now) names.now)) }
{
    if most < names.len() {
        Some(names[most].at)
    } else {
        None
    }
}

/// The first of a model's fields beyond 128.
fn field_beyond(alloc: Global, model: &Block) -> Result<Option<usize>, Memory>
    ensures { IfOk result (λ found. found ≡ first (spec.beyond 128 (field_names model.now))) }
{
    let names = field_names(alloc, model)?;
    Ok(first_beyond(MOST_FIELDS, names.as_slice()))
}

/// The first of an enum's members beyond 1,000.
fn member_beyond(alloc: Global, enumeration: &Block) -> Result<Option<usize>, Memory>
    ensures { IfOk result (λ found. found ≡ first (spec.beyond 1000 (member_names enumeration.now))) }
{
    let names = member_names(alloc, enumeration)?;
    Ok(first_beyond(MOST_MEMBERS, names.as_slice()))
}

/// The first of the fields beyond 128 in their model.
fn first_field_beyond(alloc: Global, tree: &Tree) -> Result<Option<usize>, Memory>
    ensures { IfOk result (λ found. found ≡ first (flat_map (λ model. spec.beyond 128 (field_names model)) (models tree.now))) }
{
    let mut found = None;
    for model in blocks_of(alloc, tree, Word::Model)?.as_slice() {
        found = earlier(found, field_beyond(alloc, model)?);
    }
    Ok(found)
}

/// The first of the members beyond 1,000 in their enum.
fn first_member_beyond(alloc: Global, tree: &Tree) -> Result<Option<usize>, Memory>
    ensures { IfOk result (λ found. found ≡ first (flat_map (λ enum. spec.beyond 1000 (member_names enum)) (enums tree.now))) }
{
    let mut found = None;
    for enumeration in blocks_of(alloc, tree, Word::Enum)?.as_slice() {
        found = earlier(found, member_beyond(alloc, enumeration)?);
    }
    Ok(found)
}

/// The first of the tables beyond 256.
fn table_beyond<'a>(alloc: Global, models: &'a TreeIndex<'a>) -> Result<Option<usize>, Memory>
    ensures { IfOk result (λ found. found ≡ first (spec.beyond 256 (spec.stored_tables models.now))) }
{
    let tables = stored_tables(alloc, models)?;
    let names = references(alloc, tables.as_slice())?;
    Ok(first_beyond(MOST_TABLES, names.as_slice()))
}

/// Rule V26: there are at most 256 tables, 128 fields in a model, and 1,000 members in an enum. Broken at
/// the first name beyond: of the tables in their order, of a model's fields, and of an enum's members.
#[tactic(auto, using(psl_parts::proofs::Firsts::first_append))]
pub fn limits_hold<'a>(alloc: Global, models: &'a TreeIndex<'a>) -> Result<Option<usize>, Memory>
    ensures { IfOk result (λ found. found ≡ first (spec.limits_hold models.now)) }
{
    let table = table_beyond(alloc, models)?;
    let field = first_field_beyond(alloc, models.types().tree())?;
    let member = first_member_beyond(alloc, models.types().tree())?;
    Ok(earlier(table, earlier(field, member)))
}
