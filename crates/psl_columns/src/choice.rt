//! Enums.
ghost use Rattle.std.specs.Prelude.{◌≡◌, IfOk, map};
ghost use Rattle.psl_rules.specs.Parts.{members};
ghost use Rattle.psl_sound.specs.SchemaOf as spec;

use psl_parts::blocks_of;
use psl_text::{Block, Entry, Tree, Word};
use qe_base::Choice;
use qe_text::{Items, Memory, Text};
use std::alloc::Global;

/// Copies of the names of an enum's members, in text order.
fn members(alloc: Global, enumeration: &Block) -> Result<Items<Text>, Memory>
    ensures { IfOk result (λ texts. texts ≡ map (λ member. member.name.text) (members enumeration.now)) }
{
    let mut texts = Items::new(alloc);
    for entry in enumeration.entries.as_slice() {
        if let Entry::Member { name, .. } = entry {
            texts.push(name.text.copy(alloc)?)?;
        }
    }
    Ok(texts)
}

fn choice(alloc: Global, enumeration: &Block) -> Result<Choice, Memory>
    ensures { IfOk result (λ choice. choice ≡ spec.choice_of enumeration.now) }
{
    Ok(Choice {
        name: enumeration.name.text.copy(alloc)?,
        members: members(alloc, enumeration)?,
    })
}

/// The enums of a tree, in text order.
pub fn choices(alloc: Global, tree: &Tree) -> Result<Items<Choice>, Memory>
    ensures { IfOk result (λ choices. choices ≡ spec.choices_of tree.now) }
{
    let mut choices = Items::new(alloc);
    for enumeration in blocks_of(alloc, tree, Word::Enum)?.as_slice() {
        choices.push(choice(alloc, enumeration)?)?;
    }
    Ok(choices)
}
