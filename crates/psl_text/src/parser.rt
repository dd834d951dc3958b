//! Steps over the tokens of a text.
ghost use Rattle.std.specs.Prelude.{◌≡◌, length, IfOk, true};
ghost use Rattle.psl_text.specs.Parser as spec;
ghost use Rattle.psl_text.specs.Parser.{Reads};

use crate::fault::TextFault;
use crate::token::{Kind, Token};
use crate::tree::Name;
use qe_text::{Items, Memory, Text};
use std::alloc::Global;
use std::marker::Model;

/// The tokens that are left.
#[derive(Drop)]
pub struct Parser<'a> {
    pub alloc: Global,
    tokens: &'a [Token],
}

impl<'a> Model for Parser<'a> {
    ghost use Rattle.std.specs.Prelude.{List};
    ghost use Rattle.psl_text.specs.declared.token.Token.{Token};

    ghost Value = { List Token };

    ghost view = { λ p. p.tokens.now };
}

fn same_kind(a: Kind, b: Kind) -> bool
    ensures value { result ≡ spec.same_kind a b }
    ensures same { result ≡ true → a ≡ b }
{
    a == b
}

impl<'a> Parser<'a> {
    pub fn new(alloc: Global, tokens: &'a [Token]) -> Parser<'a>
        ensures { result ≡ tokens.now }
    {
        Parser { alloc, tokens }
    }

    /// How many tokens are left.
    pub fn left(&self) -> usize
        ensures { result ≡ length self.now }
    {
        self.tokens.len()
    }

    /// The kind of the next token.
    #[tactic(auto, unfolding(crate::specs::Parser::kind_of))]
    pub fn peek(&self) -> Kind
        ensures { result ≡ spec.kind_of self.now }
    {
        match self.tokens {
            [next, ..] => next.kind,
            [] => Kind::End,
        }
    }

    #[tactic(auto, unfolding(crate::specs::Parser::place_of))]
    fn place(&self) -> usize
        ensures { result ≡ spec.place_of self.now }
    {
        match self.tokens {
            [next, ..] => next.at,
            [] => 0,
        }
    }

    /// Passes the next token.
    #[tactic(auto, unfolding(crate::specs::Parser::rest_of))]
    pub fn pass(&mut self)
        ensures { self.new ≡ spec.rest_of self.old }
    {
        if let [_, rest @ ..] = self.tokens {
            self.tokens = rest;
        }
    }

    /// Why the next token doesn't fit.
    #[tactic(auto, unfolding(crate::specs::Parser::refusal))]
    pub fn refuse(&self) -> TextFault
        ensures value { result ≡ spec.refusal self.now }
    {
        let at = self.place();
        match self.peek() {
            Kind::BadCharacter => TextFault::BadCharacter { at },
            Kind::Unclosed => TextFault::Unclosed { at },
            _ => TextFault::Unexpected { at },
        }
    }

    #[tactic(auto, unfolding(crate::specs::Parser::sees))]
    pub fn sees(&self, kind: Kind) -> bool
        ensures { result ≡ spec.sees kind self.now }
    {
        same_kind(self.peek(), kind)
    }

    /// Passes the next token if it is of this kind.
    pub fn eat(&mut self, kind: Kind) -> bool
        ensures { spec.eat kind self.old ≡ Ok (result, self.new) }
    {
        let sees = self.sees(kind);
        if sees {
            self.pass();
        }
        sees
    }

    #[tactic(auto, unfolding(crate::specs::Parser::expect))]
    pub fn expect(&mut self, kind: Kind) -> Result<(), TextFault>
        ensures { Reads (spec.expect kind self.old) result self.new }
    {
        if !self.sees(kind) {
            return Err(self.refuse());
        }
        self.pass();
        Ok(())
    }

    /// The kind of the token behind the next one.
    #[tactic(auto, unfolding(crate::specs::Parser::kind_of, crate::specs::Parser::rest_of))]
    pub fn peek_behind(&self) -> Kind
        ensures { result ≡ spec.kind_of (spec.rest_of self.now) }
    {
        match self.tokens {
            [_, behind, ..] => behind.kind,
            _ => Kind::End,
        }
    }

    /// Why the token behind the next one doesn't fit.
    pub fn refuse_behind(&self) -> TextFault
        ensures { result ≡ spec.refusal (spec.rest_of self.now) }
    {
        let mut behind = Parser {
            alloc: self.alloc,
            tokens: self.tokens,
        };
        behind.pass();
        behind.refuse()
    }

    /// The text of the next token.
    #[tactic(auto, unfolding(crate::specs::Parser::text_of))]
    pub fn text(&self) -> &'a str
        ensures { result.now ≡ spec.text_of self.now }
    {
        match self.tokens {
            [next, ..] => next.text.as_str(),
            [] => "",
        }
    }

    /// The lines of documentation above the next token.
    #[tactic(auto, unfolding(crate::specs::Parser::docs_of))]
    pub fn docs(&self) -> Result<Items<Text>, Memory>
        ensures { IfOk result (λ ds. ds ≡ spec.docs_of self.now) }
    {
        match self.tokens {
            [next, ..] => copy_texts(self.alloc, &next.docs),
            [] => Ok(Items::new(self.alloc)),
        }
    }

    /// The text and the place of a token of this kind, which it passes.
    #[tactic(auto, unfolding(crate::specs::Parser::spelled))]
    pub fn spelled(&mut self, kind: Kind) -> Result<Name, TextFault>
        ensures { Reads (spec.spelled kind self.old) result self.new }
    {
        if !self.sees(kind) {
            return Err(self.refuse());
        }
        let name = Name {
            text: Text::from_str(self.alloc, self.text())?,
            at: self.place(),
        };
        self.pass();
        Ok(name)
    }

    pub fn name(&mut self) -> Result<Name, TextFault>
        ensures { Reads (spec.name self.old) result self.new }
    {
        self.spelled(Kind::Name)
    }
}

fn copy_texts(alloc: Global, all: &Items<Text>) -> Result<Items<Text>, Memory>
    ensures { IfOk result (λ copy. copy ≡ all.now) }
{
    let mut copy = Items::new(alloc);
    for item in all.as_slice() {
        copy.push(item.copy(alloc)?)?;
    }
    Ok(copy)
}
