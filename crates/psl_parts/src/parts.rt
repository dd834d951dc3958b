//! The blocks of a tree, by the words that they begin with.
ghost use Rattle.std.specs.Prelude.{◌≡◌, IfOk, map};
ghost use Rattle.psl_rules.specs.Parts.{blocks_of, datasources, models, enums};

use psl_text::{Block, Tree, Word};
use qe_text::Memory;
use std::alloc::Global;

/// The blocks that begin with a word, in text order.
#[tactic(auto, unfolding(psl_rules::specs::Parts::same_word))]
pub fn blocks_of(alloc: Global, tree: &Tree, word: Word) -> Result<Vec<&Block>, Memory>
    ensures { IfOk result (λ blocks. map (λ block. block.now) blocks.items ≡ blocks_of word tree.now) }
{
    let mut blocks = Vec::new(alloc);
    for block in tree.blocks.as_slice() {
        if block.word == word {
            blocks.push(block)?;
        }
    }
    Ok(blocks)
}
