//! Attributes.
ghost use Rattle.std.specs.Prelude.{◌≡◌, ◌∷◌, ◌++◌, IfOk};
ghost use Rattle.psl_text.specs.Parser.{Reads};
ghost use Rattle.psl_text.specs.Grammar as spec;

use crate::fault::TextFault;
use crate::parser::Parser;
use crate::term::{MAX_DEPTH, arguments};
use crate::token::Kind;
use crate::tree::{Argument, Attribute, Name};
use qe_text::{Items, Memory, Text};
use std::alloc::Global;

/// The text of two names with a dot between them.
fn dotted(alloc: Global, first: &Text, second: &Text) -> Result<Text, Memory>
    ensures { IfOk result (λ t. t ≡ first.now ++ 46 ∷ second.now) }
{
    let mut text = String::from_str(alloc, first.as_str())?;
    text.push('.')?;
    text.push_str(second.as_str())?;
    Ok(Text::from_string(text))
}

#[tactic(auto, unfolding(crate::specs::Grammar::attribute_name))]
fn attribute_name(parser: &mut Parser<'_>) -> Result<Name, TextFault>
    ensures { Reads (spec.attribute_name parser.old) result parser.new }
{
    let first = parser.name()?;
    if !parser.eat(Kind::Dot) {
        return Ok(first);
    }
    let second = parser.name()?;
    Ok(Name {
        text: dotted(parser.alloc, &first.text, &second.text)?,
        at: first.at,
    })
}

#[tactic(auto, unfolding(crate::specs::Grammar::arguments_if_any))]
fn arguments_if_any(parser: &mut Parser<'_>) -> Result<Items<Argument>, TextFault>
    ensures { Reads (spec.arguments_if_any parser.old) result parser.new }
{
    if parser.eat(Kind::OpenParen) {
        arguments(parser, MAX_DEPTH)
    } else {
        Ok(Items::new(parser.alloc))
    }
}

/// What follows the sign `@`.
#[tactic(auto, unfolding(crate::specs::Grammar::attribute))]
fn attribute(parser: &mut Parser<'_>) -> Result<Attribute, TextFault>
    ensures { Reads (spec.attribute parser.old) result parser.new }
{
    Ok(Attribute {
        name: attribute_name(parser)?,
        arguments: arguments_if_any(parser)?,
    })
}

/// What follows the sign `@@`.
#[tactic(auto, unfolding(crate::specs::Grammar::block_attribute))]
pub fn block_attribute(parser: &mut Parser<'_>) -> Result<Attribute, TextFault>
    ensures { Reads (spec.block_attribute parser.old) result parser.new }
{
    Ok(Attribute {
        name: parser.name()?,
        arguments: arguments_if_any(parser)?,
    })
}

/// The attributes of a field or a member.
#[tactic(auto, using(crate::proofs::Turns::attributes_more, crate::proofs::Turns::attributes_done), unfolding(crate::specs::Grammar::attributes, crate::specs::Grammar::attributes_from))]
pub fn attributes(parser: &mut Parser<'_>) -> Result<Items<Attribute>, TextFault>
    ensures { Reads (spec.attributes parser.old) result parser.new }
{
    let mut found = Items::new(parser.alloc);
    for _turn in 0..parser.left() {
        if !parser.eat(Kind::At) {
            return Ok(found);
        }
        found.push(attribute(parser)?)?;
    }
    Ok(found)
}
