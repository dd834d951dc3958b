//! Terms, and the arguments in parentheses.
ghost use Rattle.psl_text.specs.Parser.{Reads};
ghost use Rattle.psl_text.specs.Grammar as spec;

use crate::fault::TextFault;
use crate::parser::Parser;
use crate::token::Kind;
use crate::tree::{Argument, Name, Term};
use qe_text::Items;

/// How deep terms nest.
pub const MAX_DEPTH: usize = 16;

/// The name of an argument, if the next one has a name.
#[tactic(auto, unfolding(crate::specs::Grammar::argument_name))]
fn argument_name(parser: &mut Parser<'_>) -> Result<Option<Name>, TextFault>
    ensures { Reads (spec.argument_name parser.old) result parser.new }
{
    if !parser.sees(Kind::Name) {
        return Ok(None);
    }
    match parser.peek_behind() {
        Kind::Colon => {
            let name = parser.name()?;
            parser.expect(Kind::Colon)?;
            Ok(Some(name))
        }
        Kind::BadCharacter | Kind::Unclosed => Err(parser.refuse_behind()),
        _ => Ok(None),
    }
}

/// An argument, whose term has at most so many levels.
#[cycle(term)]
#[tactic(auto, unfolding(crate::specs::Grammar::argument))]
fn argument(parser: &mut Parser<'_>, depth: usize) -> Result<Argument, TextFault>
    ensures { Reads (spec.argument (spec.term_of depth) parser.old) result parser.new }
{
    Ok(Argument {
        name: argument_name(parser)?,
        value: term(parser, depth)?,
    })
}

/// What follows an opening parenthesis, up to the closing one.
#[cycle(term)]
#[tactic(auto, using(crate::proofs::Turns::one_more, crate::proofs::Turns::no_more), unfolding(crate::specs::Grammar::arguments, crate::specs::Parser::separated))]
pub fn arguments(parser: &mut Parser<'_>, depth: usize) -> Result<Items<Argument>, TextFault>
    ensures { Reads (spec.arguments (spec.term_of depth) parser.old) result parser.new }
{
    let mut found = Items::new(parser.alloc);
    for _turn in 0..parser.left() {
        if parser.eat(Kind::CloseParen) {
            return Ok(found);
        }
        found.push(argument(parser, depth)?)?;
        if !parser.eat(Kind::Comma) {
            parser.expect(Kind::CloseParen)?;
            return Ok(found);
        }
    }
    Err(parser.refuse())
}

/// What follows an opening bracket, up to the closing one.
#[cycle(term)]
#[tactic(auto, using(crate::proofs::Turns::one_more, crate::proofs::Turns::no_more), unfolding(crate::specs::Grammar::items, crate::specs::Parser::separated))]
fn items(parser: &mut Parser<'_>, depth: usize) -> Result<Items<Term>, TextFault>
    ensures { Reads (spec.items (spec.term_of depth) parser.old) result parser.new }
{
    let mut found = Items::new(parser.alloc);
    for _turn in 0..parser.left() {
        if parser.eat(Kind::CloseBracket) {
            return Ok(found);
        }
        found.push(term(parser, depth)?)?;
        if !parser.eat(Kind::Comma) {
            parser.expect(Kind::CloseBracket)?;
            return Ok(found);
        }
    }
    Err(parser.refuse())
}

/// A name, or one with arguments.
#[cycle(term)]
#[tactic(auto, unfolding(crate::specs::Grammar::named_term))]
fn named_term(parser: &mut Parser<'_>, depth: usize) -> Result<Term, TextFault>
    ensures { Reads (spec.named_term (spec.term_of depth) parser.old) result parser.new }
{
    let name = parser.name()?;
    if parser.eat(Kind::OpenParen) {
        Ok(Term::Call(name, arguments(parser, depth)?))
    } else {
        Ok(Term::Name(name))
    }
}

/// A term with at most so many levels, itself among them.
#[cycle(term)]
#[tactic(auto, unfolding(crate::specs::Grammar::level, crate::specs::Grammar::term_of))]
pub fn term(parser: &mut Parser<'_>, depth: usize) -> Result<Term, TextFault>
    ensures { Reads (spec.term_of depth parser.old) result parser.new }
{
    if depth == 0 {
        return Err(parser.refuse());
    }
    match parser.peek() {
        Kind::Text => {
            let Name { text, at } = parser.spelled(Kind::Text)?;
            Ok(Term::Text(text, at))
        }
        Kind::Number => {
            let Name { text, at } = parser.spelled(Kind::Number)?;
            Ok(Term::Number(text, at))
        }
        Kind::Name => named_term(parser, depth - 1),
        Kind::OpenBracket => {
            let at = parser.spelled(Kind::OpenBracket)?.at;
            Ok(Term::List(items(parser, depth - 1)?, at))
        }
        _ => Err(parser.refuse()),
    }
}
