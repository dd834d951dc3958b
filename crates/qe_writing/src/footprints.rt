//! Definitions: the tables that an operation depends on, and those that it may write.
ghost use Rattle.std.specs.Prelude.{◌≡◌, ◌∷◌, [], None};
ghost use Rattle.qe_base.specs.declared.write.Op.TheVariants.{CreateMany};
ghost use Rattle.qe_writing.specs.Samples.{blog, chain, tree};
ghost use Rattle.qe_writing.specs.Foot.{foot_of, writes_of};
ghost use Rattle.qe_writing.specs.Touched.{seen, written, changes_of, deletes_of};

/// What a change or a delete may touch, worked out by hand: along two compound keys, with the link table of
/// a changed id, and round a ring that is watched.
pub fn changes_and_deletes()
    ensures chain { changes_of chain 0 (0 ∷ []) ≡ written 0 ∷ written 1 ∷ written 1 ∷ written 2 ∷ written 2 ∷ [] }
    ensures unreferred { changes_of chain 2 (3 ∷ []) ≡ written 2 ∷ [] }
    ensures linked { changes_of blog 1 (0 ∷ []) ≡ written 1 ∷ written 2 ∷ [] }
    ensures watched { deletes_of tree 0 ≡ written 0 ∷ seen 0 ∷ [] }
{}

/// An operation that makes no rows counts as one that writes its table.
pub fn creates_of_nothing()
    ensures depends { foot_of blog (CreateMany (record { 0 = 1 }) [] None) ≡ 1 ∷ [] }
    ensures writes { writes_of blog (CreateMany (record { 0 = 1 }) [] None) ≡ 1 ∷ [] }
{}
