//! Names that stand twice.
ghost use Rattle.std.specs.Prelude.{◌≡◌, IfOk, map};
ghost use Rattle.psl_rules.specs.Parts.{first, place};
ghost use Rattle.qe_text.specs.Lists.{repeats};
ghost use Rattle.psl_rules.specs.Names.{same_name};
ghost use Rattle.psl_rules.specs.Attributes.{are_distinct_names};

use crate::first::noted;
use indexmap::IndexSet;
use psl_text::Name;
use qe_text::Memory;
use std::alloc::Global;

/// The first place of a name that an earlier one is like.
pub fn first_repeat(alloc: Global, names: &[&Name]) -> Result<Option<usize>, Memory>
    ensures { IfOk result (λ found. found ≡ first (map place (repeats same_name (map (λ name. name.now) names.now)))) }
{
    let mut seen = IndexSet::new(alloc);
    let mut found = None;
    for name in names {
        let is_new = seen.insert(name.text.as_str())?;
        found = noted(found, !is_new, name.at);
    }
    Ok(found)
}

/// Whether no name stands twice among these.
pub fn stand_once(alloc: Global, names: &[&str]) -> Result<bool, Memory>
    ensures { IfOk result (λ holds. holds ≡ are_distinct_names (map (λ name. name.now) names.now)) }
{
    let mut seen = IndexSet::new(alloc);
    for name in names {
        let is_new = seen.insert(*name)?;
        if !is_new {
            return Ok(false);
        }
    }
    Ok(true)
}
