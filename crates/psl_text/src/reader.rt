//! The tree of a text.
ghost use Rattle.std.specs.Prelude.{◌≢◌, IfOk, IfErr, OnOk, Ok, Err};
ghost use Rattle.psl_text.specs.declared.fault.TextFault.{TextFault};
ghost use Rattle.psl_text.specs.declared.fault.TextFault.TheVariants as fault;
ghost use Rattle.psl_text.specs.declared.tree.Tree.{Tree};
ghost use Rattle.psl_text.specs.Grammar.{tree_of, Answers};
ghost use Rattle.psl_text.specs.Derives.{IsText, HasTree};
ghost use Rattle.psl_text.specs.Faults.{HasFault};

use crate::block::blocks;
use crate::fault::TextFault;
use crate::lexer::tokens_of;
use crate::parser::Parser;
use crate::tree::Tree;
use std::alloc::Global;

/// How many bytes a text may have.
const MAX_LENGTH: usize = 1_048_576;

/// The tree of a text, or its first fault.
#[tactic(auto, unfolding(crate::specs::Grammar::tree_of))]
fn read(alloc: Global, text: &[u8]) -> Result<Tree, TextFault>
    ensures exact { Answers (tree_of text.now) result }
    ensures ok { OnOk result (IsText text.now) }
{
    if text.len() > MAX_LENGTH {
        return Err(TextFault::TooLong { at: MAX_LENGTH });
    }
    let source = match str::from_utf8(text) {
        Ok(source) => source,
        Err(error) => {
            return Err(TextFault::NotUtf8 {
                at: error.valid_up_to(),
            });
        }
    };
    let tokens = tokens_of(alloc, source)?;
    let mut parser = Parser::new(alloc, tokens.as_slice());
    Ok(Tree {
        blocks: blocks(&mut parser)?,
        length: text.len(),
    })
}

/// The tree of a text, or why it has none. Of several faults the first one from the left is answered,
/// but a text that is too long or isn't UTF-8 is not read at all.
pub fn read_tree(alloc: Global, text: &[u8]) -> Result<Tree, TextFault>
    // What is answered is the tree of the text.
    ensures found { IfOk result (HasTree text.now) }

    // A text that has a tree is answered by it, unless memory runs out.
    ensures only { (tree : Tree) → HasTree text.now tree → Answers (Ok tree) result }

    // What is refused has that fault, and a text that has a fault is refused with it, unless memory
    // runs out.
    ensures fault { IfErr result (λ e. e ≢ fault.Memory → HasFault text.now e) }
    ensures only_fault { (e : TextFault) → HasFault text.now e → Answers (Err e) result }
{
    read(alloc, text)
}
