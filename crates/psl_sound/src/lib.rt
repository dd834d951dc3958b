//! The value of an accepted tree, and that it is sound.
#![tactic(auto)]

ghost use Rattle.psl_text.specs.declared.tree.Tree.{Tree};
ghost use Rattle.psl_rules.specs.Accepted.{IsAccepted};
ghost use Rattle.qe_schema.specs.Sound.{IsSound};
ghost use Rattle.psl_sound.specs.SchemaOf.{schema_of};

/// The value of an accepted tree is a sound schema.
pub fn values_are_sound()
    ensures sound { (tree : Tree) → IsAccepted tree → IsSound (schema_of tree) }
{}
