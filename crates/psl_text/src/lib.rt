//! The text of a schema as a tree: its tokens, and the grammar over them.
#![tactic(auto)]

mod attribute;
mod block;
mod fault;
mod laws;
mod lexer;
mod parser;
mod reader;
mod scan;
mod term;
mod token;
mod tree;

pub use fault::TextFault;
pub use laws::{
    first_from_the_left, never_both, one_fault, one_list_of_tokens, one_tree, some_answer, too_long,
};
pub use reader::read_tree;
pub use tree::{Argument, Attribute, Block, Entry, Mark, Name, Term, Tree, Word};
