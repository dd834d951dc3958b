//! All rules, one after another.
ghost use Rattle.std.specs.Prelude.{◌≡◌, IfOk};
ghost use Rattle.psl_rules.specs.Accepted as spec;

use crate::breach::Breach;
use crate::fields::{broken_attribute, broken_block, broken_key, broken_type};
use crate::relations::broken_relation;
use psl_parts::Types;
use psl_text::Tree;
use qe_text::Memory;
use std::alloc::Global;

/// The broken rule of the least number, and the first place in the text that breaks it.
#[tactic(auto, using(crate::proofs::Later::grouped))]
pub fn first_breach(alloc: Global, tree: &Tree) -> Result<Option<Breach>, Memory>
    ensures { IfOk result (λ found. found ≡ spec.first_breach tree.now) }
{
    if let Some(breach) = broken_block(alloc, tree)? {
        return Ok(Some(breach));
    }
    let types = Types::of(alloc, tree)?;
    if let Some(breach) = broken_type(alloc, &types)? {
        return Ok(Some(breach));
    }
    if let Some(breach) = broken_attribute(alloc, &types)? {
        return Ok(Some(breach));
    }
    if let Some(breach) = broken_key(alloc, tree)? {
        return Ok(Some(breach));
    }
    broken_relation(alloc, &types)
}
