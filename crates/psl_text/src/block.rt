//! Blocks, and what stands in them.
ghost use Rattle.std.specs.Prelude.{◌≡◌};
ghost use Rattle.psl_text.specs.Parser.{Reads};
ghost use Rattle.psl_text.specs.Grammar as spec;

use crate::attribute::{attributes, block_attribute};
use crate::fault::TextFault;
use crate::parser::Parser;
use crate::term::{MAX_DEPTH, term};
use crate::token::Kind;
use crate::tree::{Block, Entry, Mark, Word};
use qe_text::{Items, Text};

#[tactic(auto, unfolding(crate::specs::Grammar::mark_of))]
fn mark(parser: &mut Parser<'_>) -> Result<Mark, TextFault>
    ensures { Reads (spec.mark_of parser.old) result parser.new }
{
    if parser.eat(Kind::Question) {
        return Ok(Mark::Optional);
    }
    if !parser.eat(Kind::OpenBracket) {
        return Ok(Mark::One);
    }
    parser.expect(Kind::CloseBracket)?;
    Ok(Mark::Many)
}

#[tactic(auto, unfolding(crate::specs::Grammar::setting))]
fn setting(parser: &mut Parser<'_>) -> Result<Entry, TextFault>
    ensures { Reads (spec.setting parser.old) result parser.new }
{
    let name = parser.name()?;
    parser.expect(Kind::Equals)?;
    let value = term(parser, MAX_DEPTH)?;
    Ok(Entry::Setting { name, value })
}

#[tactic(auto, unfolding(crate::specs::Grammar::field))]
fn field(parser: &mut Parser<'_>, docs: Items<Text>) -> Result<Entry, TextFault>
    ensures { Reads (spec.field docs parser.old) result parser.new }
{
    let name = parser.name()?;
    let kind = parser.name()?;
    let mark = mark(parser)?;
    let attributes = attributes(parser)?;
    Ok(Entry::Field {
        name,
        kind,
        mark,
        attributes,
        docs,
    })
}

#[tactic(auto, unfolding(crate::specs::Grammar::member))]
fn member(parser: &mut Parser<'_>, docs: Items<Text>) -> Result<Entry, TextFault>
    ensures { Reads (spec.member docs parser.old) result parser.new }
{
    let name = parser.name()?;
    let attributes = attributes(parser)?;
    Ok(Entry::Member {
        name,
        attributes,
        docs,
    })
}

/// An entry of a block that begins with this word.
#[tactic(auto, unfolding(crate::specs::Grammar::entry_of, crate::specs::Grammar::of_block))]
fn entry(parser: &mut Parser<'_>, word: Word) -> Result<Entry, TextFault>
    ensures { Reads (spec.entry_of word parser.old) result parser.new }
{
    match word {
        Word::Datasource | Word::Generator => setting(parser),
        Word::Model => model_entry(parser),
        Word::Enum => enum_entry(parser),
    }
}

#[tactic(auto, unfolding(crate::specs::Grammar::of_block))]
fn model_entry(parser: &mut Parser<'_>) -> Result<Entry, TextFault>
    ensures { Reads (spec.of_block spec.field parser.old) result parser.new }
{
    let docs = parser.docs()?;
    if parser.eat(Kind::AtAt) {
        let attribute = block_attribute(parser)?;
        Ok(Entry::Block { attribute, docs })
    } else {
        field(parser, docs)
    }
}

#[tactic(auto, unfolding(crate::specs::Grammar::of_block))]
fn enum_entry(parser: &mut Parser<'_>) -> Result<Entry, TextFault>
    ensures { Reads (spec.of_block spec.member parser.old) result parser.new }
{
    let docs = parser.docs()?;
    if parser.eat(Kind::AtAt) {
        let attribute = block_attribute(parser)?;
        Ok(Entry::Block { attribute, docs })
    } else {
        member(parser, docs)
    }
}

/// The end of an entry: a newline, or the closing brace, which it leaves.
#[tactic(auto, unfolding(crate::specs::Grammar::ending))]
fn ending(parser: &mut Parser<'_>) -> Result<(), TextFault>
    ensures { Reads (spec.ending parser.old) result parser.new }
{
    if parser.sees(Kind::CloseBrace) {
        Ok(())
    } else {
        parser.expect(Kind::Newline)
    }
}

/// What follows the opening brace of a block, up to the closing one.
#[tactic(auto, using(crate::proofs::Turns::entries_more, crate::proofs::Turns::entries_done), unfolding(crate::specs::Grammar::entries, crate::specs::Grammar::entries_from))]
fn entries(parser: &mut Parser<'_>, word: Word) -> Result<Items<Entry>, TextFault>
    ensures { Reads (spec.entries word parser.old) result parser.new }
{
    let mut found = Items::new(parser.alloc);
    for _turn in 0..parser.left() {
        if parser.eat(Kind::CloseBrace) {
            return Ok(found);
        }
        if parser.eat(Kind::Newline) {
            continue;
        }
        found.push(entry(parser, word)?)?;
        ending(parser)?;
    }
    Err(parser.refuse())
}

fn word_named(text: &str) -> Option<Word>
    ensures { result ≡ spec.word_named text.now }
{
    match text {
        "datasource" => Some(Word::Datasource),
        "generator" => Some(Word::Generator),
        "model" => Some(Word::Model),
        "enum" => Some(Word::Enum),
        _ => None,
    }
}

/// The word that a block begins with.
#[tactic(auto, unfolding(crate::specs::Grammar::word_of))]
fn word(parser: &mut Parser<'_>) -> Result<Word, TextFault>
    ensures { Reads (spec.word_of parser.old) result parser.new }
{
    if !parser.sees(Kind::Name) {
        return Err(parser.refuse());
    }
    match word_named(parser.text()) {
        Some(word) => {
            parser.pass();
            Ok(word)
        }
        None => Err(parser.refuse()),
    }
}

#[tactic(auto, unfolding(crate::specs::Grammar::block))]
fn block(parser: &mut Parser<'_>) -> Result<Block, TextFault>
    ensures { Reads (spec.block parser.old) result parser.new }
{
    let docs = parser.docs()?;
    let word = word(parser)?;
    let name = parser.name()?;
    parser.expect(Kind::OpenBrace)?;
    let entries = entries(parser, word)?;
    Ok(Block {
        word,
        name,
        docs,
        entries,
    })
}

/// The blocks of a whole text, up to its end.
#[tactic(auto, using(crate::proofs::Turns::blocks_more, crate::proofs::Turns::blocks_done), unfolding(crate::specs::Grammar::blocks, crate::specs::Grammar::blocks_from))]
pub fn blocks(parser: &mut Parser<'_>) -> Result<Items<Block>, TextFault>
    ensures { Reads (spec.blocks parser.old) result parser.new }
{
    let mut found = Items::new(parser.alloc);
    for _turn in 0..parser.left() {
        if parser.sees(Kind::End) {
            return Ok(found);
        }
        if parser.eat(Kind::Newline) {
            continue;
        }
        found.push(block(parser)?)?;
    }
    if parser.sees(Kind::End) {
        Ok(found)
    } else {
        Err(parser.refuse())
    }
}
