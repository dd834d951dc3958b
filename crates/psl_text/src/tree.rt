//! The tree of a schema text. Each `at` is the place of the first byte.
use qe_text::{Items, Text};

/// A whole text: its blocks in order, and how many bytes it has.
#[derive(Drop)]
pub struct Tree {
    pub blocks: Items<Block>,
    pub length: usize,
}

/// The word that a block begins with.
#[derive(Clone, Copy, Debug, PartialEq, Eq)]
pub enum Word {
    Datasource,
    Generator,
    Model,
    Enum,
}

/// A name. That of an attribute may be two with a dot between them.
#[derive(Drop)]
pub struct Name {
    pub text: Text,
    pub at: usize,
}

/// A block, with the lines of documentation above it.
#[derive(Drop)]
pub struct Block {
    pub word: Word,
    pub name: Name,
    pub docs: Items<Text>,
    pub entries: Items<Entry>,
}

/// What stands in a block: settings in datasources and generators, fields in models, members in
/// enums, and the attributes of a whole model or enum.
#[derive(Drop)]
pub enum Entry {
    Setting {
        name: Name,
        value: Term,
    },
    Member {
        name: Name,
        attributes: Items<Attribute>,
        docs: Items<Text>,
    },
    Field {
        name: Name,
        kind: Name,
        mark: Mark,
        attributes: Items<Attribute>,
        docs: Items<Text>,
    },
    Block {
        attribute: Attribute,
        docs: Items<Text>,
    },
}

/// How many values a field has: one, one or none (`?`), or any number (`[]`).
#[derive(Clone, Copy, Debug, PartialEq, Eq)]
pub enum Mark {
    One,
    Optional,
    Many,
}

/// An attribute. Empty parentheses and none are alike.
#[derive(Drop)]
pub struct Attribute {
    pub name: Name,
    pub arguments: Items<Argument>,
}

/// A term in parentheses, with its name where it has one.
#[cycle(term)]
#[derive(Drop)]
pub struct Argument {
    pub name: Option<Name>,
    pub value: Term,
}

/// A string (what it stands for, without its escapes), a number as it is written, a name, a name
/// with arguments, or a list.
#[cycle(term)]
#[derive(Drop)]
pub enum Term {
    Text(Text, usize),
    Number(Text, usize),
    Name(Name),
    Call(Name, Items<Argument>),
    List(Items<Term>, usize),
}
