//! Names, and their numbers in a list.
ghost use Rattle.std.specs.Prelude.{◌≡◌, IfOk, map, position, bytes_eq};
ghost use Rattle.psl_rules.specs.Parts.{members};
ghost use Rattle.psl_rules.specs.Names.{is_value_type};
ghost use Rattle.psl_sound.specs.SchemaOf as spec;

use psl_parts::{Types, is_scalar};
use psl_text::{Block, Entry, Name};
use qe_text::Memory;
use std::alloc::Global;

/// The place of a name in a list, from 0.
fn place_among(names: &[&str], name: &str) -> Option<usize>
    ensures { result ≡ position (λ other. bytes_eq name.now other.now) names.now }
{
    names.iter().position(|other| name == *other)
}

/// The number of a name in a list, from 0, and 0 where it isn't there. Where 16 bits don't hold it
/// there is no number, and the answer is `Memory`.
#[tactic(auto, using(crate::proofs::Places::position_map))]
pub fn number_among(names: &[&str], name: &str) -> Result<u16, Memory>
    ensures { IfOk result (λ number. number ≡ spec.number_among (map (λ name. name.now) names.now) name.now) }
{
    match place_among(names, name) {
        Some(at) => as_number(at),
        None => Ok(0),
    }
}

/// A number of 16 bits, and `Memory` where they don't hold it.
pub fn as_number(at: usize) -> Result<u16, Memory>
    ensures { IfOk result (λ number. number ≡ at) }
{
    if at < 65_536 {
        Ok(at as u16)
    } else {
        Err(Memory)
    }
}

/// The names of an enum's members, in text order.
pub fn member_names(alloc: Global, enumeration: &Block) -> Result<Vec<&str>, Memory>
    ensures { IfOk result (λ names. map (λ name. name.now) names.items ≡ map (λ member. member.name.text) (members enumeration.now)) }
{
    let mut names = Vec::new(alloc);
    for entry in enumeration.entries.as_slice() {
        if let Entry::Member { name, .. } = entry {
            names.push(name.text.as_str())?;
        }
    }
    Ok(names)
}

/// Whether a field of this type has a value of its own.
pub fn is_column(types: &Types, kind: &Name) -> bool
    ensures { result ≡ is_value_type types.now kind.now.text }
{
    is_scalar(kind) || types.is_enum(&kind.text)
}

/// The names of a model's columns, in text order.
pub fn column_names<'a>(
    alloc: Global,
    types: &Types,
    model: &'a Block,
) -> Result<Vec<&'a str>, Memory>
    ensures { IfOk result (λ names. map (λ name. name.now) names.items ≡ spec.column_names types.now model.now) }
{
    let mut names = Vec::new(alloc);
    for entry in model.entries.as_slice() {
        if let Entry::Field { name, kind, .. } = entry {
            if is_column(types, kind) {
                names.push(name.text.as_str())?;
            }
        }
    }
    Ok(names)
}
