//! Cuts a text into tokens.
ghost use Rattle.std.specs.Prelude.{◌≡◌, ◌≤◌, ◌<◌, ◌+◌, ◌-◌, ◌^◌, [], length, take, drop, slice_index, IfOk, OnOk, IsUtf8, true, false};
ghost use Rattle.std.specs.Str.{IsCharBoundary};
ghost use Rattle.psl_text.specs.Scan.{IsSpan, is_fault};
ghost use Rattle.psl_text.specs.Lex as spec;

use crate::scan::{byte_at, front, last_blanks};
use crate::token::{Kind, Token};
use qe_text::{Items, Memory, Text};
use std::alloc::Global;

/// An open bracket.
#[derive(Clone, Copy)]
pub struct Bracket {
    pub is_brace: bool,
    pub at: usize,
}

/// What a line has up to the cursor: nothing but white space, documentation, or something else.
#[derive(Clone, Copy)]
pub enum Line {
    Fresh,
    Doc,
    Used,
}

/// How far a text was read, the brackets that are open there, and the lines of documentation
/// directly above.
#[derive(Drop)]
pub struct Cursor {
    pub at: usize,
    pub brackets: Items<Bracket>,
    pub docs: Items<Text>,
    pub line: Line,
}

/// Opens or closes a bracket.
#[tactic(auto, using(crate::proofs::Innermost::popped))]
fn follow(brackets: &mut Items<Bracket>, kind: Kind, at: usize) -> Result<(), Memory>
    ensures { OnOk result (brackets.new ≡ spec.opened kind at brackets.old) }
{
    match kind {
        Kind::OpenBrace => brackets.push(Bracket { is_brace: true, at })?,
        Kind::OpenParen | Kind::OpenBracket => brackets.push(Bracket {
            is_brace: false,
            at,
        })?,
        Kind::CloseBrace | Kind::CloseParen | Kind::CloseBracket => {
            brackets.pop();
        }
        _ => {}
    }
    Ok(())
}

fn innermost(brackets: &Items<Bracket>) -> Option<Bracket>
    ensures { result ≡ spec.innermost brackets.now }
{
    brackets.as_slice().last().copied()
}

/// Whether a newline is white space.
fn is_inside(brackets: &Items<Bracket>) -> bool
    ensures { result ≡ spec.is_inside brackets.now }
{
    match innermost(brackets) {
        None => false,
        Some(bracket) => !bracket.is_brace,
    }
}

fn escaped(byte: u8) -> u8
    ensures { result ≡ spec.escaped byte }
{
    match byte {
        b'n' => b'\n',
        b'r' => b'\r',
        b't' => b'\t',
        _ => byte,
    }
}

/// What a string stands for, by what stands between its quotes.
fn unescaped(alloc: Global, content: &str) -> Result<Text, Memory>
    ensures { IfOk result (λ t. t ≡ spec.unescaped false content.now) }
{
    let mut bytes = Vec::new(alloc);
    let mut is_escaped = false;
    for byte in content.as_bytes() {
        if is_escaped {
            bytes.push(escaped(*byte))?;
            is_escaped = false;
        } else if *byte == b'\\' {
            is_escaped = true;
        } else {
            bytes.push(*byte)?;
        }
    }
    match String::from_utf8(bytes) {
        Ok(text) => Ok(Text::from_string(text)),
        Err(_) => unreachable!(),
    }
}

/// The bytes from `start` to `end`, which lie between characters.
fn part(alloc: Global, text: &str, start: usize, end: usize) -> Result<Text, Memory>
    requires order { start ≤ end }
    requires start { IsCharBoundary text.now start }
    requires end { IsCharBoundary text.now end }
    ensures { IfOk result (λ t. t ≡ take (end - start) (drop start text.now)) }
{
    Ok(Text::from_str(alloc, &text[start..end])?)
}

/// The text of the token that stands at `at`.
#[tactic(auto, using(crate::proofs::Cuts::cut_before, crate::proofs::Cuts::cut_behind_quote, crate::proofs::Cuts::cut_before_quote, crate::proofs::Cuts::inner))]
fn text_of(alloc: Global, text: &str, kind: Kind, at: usize, length: usize) -> Result<Text, Memory>
    requires { IsSpan (drop at text.now) kind length }
    ensures { IfOk result (λ t. t ≡ spec.text_of kind (take length (drop at text.now))) }
{
    match kind {
        Kind::Name | Kind::Number => part(alloc, text, at, at + length),
        Kind::Text => unescaped(alloc, &text[at + 1..at + length - 1]),
        _ => empty(alloc),
    }
}

/// The documentation in a comment that goes from `at` on.
#[tactic(auto, using(crate::proofs::Docs::doc_end, crate::proofs::Docs::doc_long, crate::proofs::Docs::doc_order, crate::proofs::Docs::doc_text))]
fn doc_of(alloc: Global, text: &str, at: usize, length: usize) -> Result<Text, Memory>
    requires span { IsSpan (drop at text.now) Kind.Comment length }
    requires doc { spec.is_doc_comment (take length (drop at text.now)) ≡ true }
    ensures { IfOk result (λ t. t ≡ spec.doc_of (take length (drop at text.now))) }
{
    let content = &text.as_bytes()[at + 3..at + length];
    let end = at + length - last_blanks(content);
    part(alloc, text, at + 3, end)
}

fn empty(alloc: Global) -> Result<Text, Memory>
    ensures { IfOk result (λ t. t ≡ []) }
{
    Ok(Text::from_str(alloc, "")?)
}

/// A token without a text.
fn mark(alloc: Global, kind: Kind, at: usize) -> Result<Token, Memory>
    ensures { IfOk result (λ t. t ≡ spec.mark kind at) }
{
    Ok(Token {
        kind,
        at,
        text: empty(alloc)?,
        docs: Items::new(alloc),
    })
}

fn is_fault(kind: Kind) -> bool
    ensures { result ≡ is_fault kind }
{
    match kind {
        Kind::BadCharacter | Kind::Unclosed => true,
        _ => false,
    }
}

impl Cursor {
    fn new(alloc: Global) -> Cursor
        ensures { result ≡ spec.start }
    {
        Cursor {
            at: 0,
            brackets: Items::new(alloc),
            docs: Items::new(alloc),
            line: Line::Fresh,
        }
    }

    /// Passes a comment, and keeps its documentation.
    fn pass_comment(&mut self, alloc: Global, text: &str, length: usize) -> Result<(), Memory>
        requires { IsSpan (drop self.old.at text.now) Kind.Comment length }
        ensures { OnOk result (self.new ≡ spec.behind_comment length (take length (drop self.old.at text.now)) self.old) }
    {
        let comment = &text.as_bytes()[self.at..self.at + length];
        let is_doc = byte_at(comment, 2) == b'/';
        match self.line {
            Line::Fresh if is_doc => {
                self.docs.push(doc_of(alloc, text, self.at, length)?)?;
                self.line = Line::Doc;
            }
            _ => self.line = Line::Used,
        }
        self.at += length;
        Ok(())
    }

    /// Passes a newline, which is a token but in parentheses and brackets. A line without
    /// documentation ends the run of lines that have it.
    fn newline(&mut self, alloc: Global, length: usize) -> Result<Option<Token>, Memory>
        requires { self.old.at + length < 2 ^ 64 }
        ensures token { IfOk result (λ t. t ≡ spec.newline self.old) }
        ensures cursor { OnOk result (self.new ≡ spec.behind_newline length self.old) }
    {
        let token = if is_inside(&self.brackets) {
            None
        } else {
            Some(mark(alloc, Kind::Newline, self.at)?)
        };
        match self.line {
            Line::Doc => {}
            _ => self.docs = Items::new(alloc),
        }
        self.line = Line::Fresh;
        self.at += length;
        Ok(token)
    }

    /// The token at the cursor, which moves behind it.
    fn take(
        &mut self,
        alloc: Global,
        text: &str,
        kind: Kind,
        length: usize,
    ) -> Result<Token, Memory>
        requires { IsSpan (drop self.old.at text.now) kind length }
        ensures token { IfOk result (λ t. t ≡ spec.whole_token kind length (drop self.old.at text.now) self.old) }
        ensures cursor { OnOk result (self.new ≡ spec.behind_token kind length self.old) }
    {
        let token = Token {
            kind,
            at: self.at,
            text: text_of(alloc, text, kind, self.at, length)?,
            docs: std::mem::replace(&mut self.docs, Items::new(alloc)),
        };
        follow(&mut self.brackets, kind, self.at)?;
        self.line = Line::Used;
        self.at += length;
        Ok(token)
    }

    /// The end of the text, where the cursor is.
    #[tactic(auto, unfolding(crate::specs::Lex::end_of))]
    fn end(&self, alloc: Global) -> Result<Token, Memory>
        ensures { IfOk result (λ t. t ≡ spec.end_of self.now) }
    {
        match innermost(&self.brackets) {
            None => mark(alloc, Kind::End, self.at),
            Some(bracket) => mark(alloc, Kind::Unclosed, bracket.at),
        }
    }

    /// Passes what stands at the cursor, and gives its token, if it is one.
    #[tactic(auto, unfolding(crate::specs::Lex::token_at, crate::specs::Lex::cursor_at))]
    fn step(&mut self, alloc: Global, text: &str) -> Result<Option<Token>, Memory>
        requires { self.old.at < length text.now }
        ensures token { IfOk result (λ t. t ≡ spec.token_at (drop self.old.at text.now) self.old) }
        ensures cursor { IfOk result (λ t. spec.is_last t ≡ false → self.new ≡ spec.cursor_at (drop self.old.at text.now) self.old) }
        ensures moves { IfOk result (λ t. spec.is_last t ≡ false → spec.Moves text.now self.old self.new) }
    {
        let (kind, length) = front(&text.as_bytes()[self.at..]);
        match kind {
            Kind::Blank => {
                self.at += length;
                Ok(None)
            }
            Kind::Comment => {
                self.pass_comment(alloc, text, length)?;
                Ok(None)
            }
            Kind::Newline => self.newline(alloc, length),
            Kind::BadCharacter | Kind::Unclosed => Ok(Some(mark(alloc, kind, self.at + length)?)),
            _ => Ok(Some(self.take(alloc, text, kind, length)?)),
        }
    }
}

/// The tokens of a text. The last one is the end, or the first fault.
#[tactic(auto, unfolding(crate::specs::Lex::tokens_of))]
pub fn tokens_of(alloc: Global, text: &str) -> Result<Items<Token>, Memory>
    ensures { IfOk result (λ ts. ts ≡ spec.tokens_of text.now) }
{
    let mut tokens = Items::new(alloc);
    let mut cursor = Cursor::new(alloc);
    'text: while cursor.at < text.len() {
        if let Some(token) = cursor.step(alloc, text)? {
            let is_last = is_fault(token.kind);
            tokens.push(token)?;
            if is_last {
                return Ok(tokens);
            }
        }
    }
    tokens.push(cursor.end(alloc)?)?;
    Ok(tokens)
}
