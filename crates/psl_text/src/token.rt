//! Tokens.
use qe_text::{Items, Text};

/// What stands at a place of a text.
#[derive(Clone, Copy, Debug, PartialEq, Eq)]
pub enum Kind {
    /// White space within a line.
    Blank,
    Comment,
    Newline,
    Name,
    Number,
    Text,
    OpenBrace,
    CloseBrace,
    OpenParen,
    CloseParen,
    OpenBracket,
    CloseBracket,
    Comma,
    Colon,
    Equals,
    Question,
    Dot,
    At,
    AtAt,
    /// The end of the text, with no bracket open.
    End,
    /// No token: a character that may not stand here.
    BadCharacter,
    /// No token: a string without its end, or the end of the text behind an open bracket.
    Unclosed,
}

/// A token, with its place and with the lines of documentation directly above it. The text is that
/// of a name or a number, or what a string stands for.
#[derive(Drop)]
pub struct Token {
    pub kind: Kind,
    pub at: usize,
    pub text: Text,
    pub docs: Items<Text>,
}
