//! What holds of the grammar.
ghost use Rattle.std.specs.Prelude.{◌≡◌, ◌<◌, ◌⊎◌, ℕ, List, ◌∷◌, ◌++◌, length};
ghost use Rattle.psl_text.specs.declared.fault.TextFault.{TextFault};
ghost use Rattle.psl_text.specs.declared.fault.TextFault.TheVariants as fault;
ghost use Rattle.psl_text.specs.declared.token.Token.{Token};
ghost use Rattle.psl_text.specs.declared.tree.Block.{Block};
ghost use Rattle.psl_text.specs.declared.tree.Tree.{Tree};
ghost use Rattle.psl_text.specs.Tokens.{HasTokens};
ghost use Rattle.psl_text.specs.Derives.{AreBlocks, HasTree};
ghost use Rattle.psl_text.specs.Faults.{BlocksStop, HasFault};
ghost use Rattle.psl_text.specs.Grammar.{max_length};

/// Every text has tokens, and no two lists of them.
pub fn one_list_of_tokens()
    ensures some { (text : List ℕ) → (tokens : List Token) × HasTokens text tokens }
    ensures only { (text : List ℕ) (a b : List Token) → HasTokens text a → HasTokens text b → a ≡ b }
{}

/// A text has at most one tree.
pub fn one_tree()
    ensures { (text : List ℕ) (a b : Tree) → HasTree text a → HasTree text b → a ≡ b }
{}

/// A text has at most one fault.
pub fn one_fault()
    ensures { (text : List ℕ) (e f : TextFault) → HasFault text e → HasFault text f → e ≡ f }
{}

/// A text that has a tree has no fault.
pub fn never_both()
    ensures { (text : List ℕ) (tree : Tree) (e : TextFault) → HasTree text tree → HasFault text e → ⊥ }
{}

/// Each text has a tree or a fault.
pub fn some_answer()
    ensures { (text : List ℕ) → ((tree : Tree) × HasTree text tree) ⊎ ((e : TextFault) × HasFault text e) }
{}

/// A text that has more bytes than a text may have is refused for that.
pub fn too_long()
    ensures { (text : List ℕ) → max_length < length text → HasFault text (fault.TooLong max_length) }
{}

/// Where tokens stop is the first place at which they fit no more: no tokens that begin with the
/// same ones, up to and with the one that is refused, derive blocks.
pub fn first_from_the_left()
    ensures { (before us vs : List Token) (t : Token) → BlocksStop (before ++ t ∷ us) (t ∷ us) → (bs : List Block) (rest : List Token) → AreBlocks (before ++ t ∷ vs) bs rest → ⊥ }
{}
