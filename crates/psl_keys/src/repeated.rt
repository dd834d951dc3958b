//! Keys that have the same fields as earlier ones.
ghost use Rattle.std.specs.Prelude.{◌≡◌, IfOk, map};
ghost use Rattle.psl_rules.specs.Parts.{first};
ghost use Rattle.qe_text.specs.Lists.{repeats};
ghost use Rattle.psl_rules.specs.Keys as spec;
ghost use Rattle.psl_keys.specs.Gathered.{Gathers};

use psl_parts::noted;
use psl_rules::Key;
use qe_text::Memory;
use std::alloc::Global;
use std::collections::{BTreeSet, HashSet};

/// The fields of a key as a set, which does not tell their order.
fn fields_of(alloc: Global, key: &Key) -> Result<BTreeSet<&str>, Memory>
    ensures { IfOk result (λ fields. Gathers fields key.now.fields) }
{
    let mut fields = BTreeSet::new(alloc);
    for field in key.fields.as_slice() {
        fields.insert(field.as_str())?;
    }
    Ok(fields)
}

/// The first place of a key with the same fields as an earlier one.
pub fn first_same_fields(alloc: Global, keys: &[Key]) -> Result<Option<usize>, Memory>
    ensures { IfOk result (λ found. found ≡ first (map spec.key_place (repeats spec.same_fields keys.now))) }
{
    let mut seen = HashSet::new(alloc);
    let mut found = None;
    for key in keys {
        let is_new = seen.insert(fields_of(alloc, key)?)?;
        found = noted(found, !is_new, key.name.at);
    }
    Ok(found)
}
