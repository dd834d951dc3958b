//! The members of enums, to look up.
ghost use Rattle.std.specs.Prelude.{◌≡◌, ◌&&◌, ◌||◌, IfOk, OnOk, bytes_eq, option_to_list};
ghost use Rattle.std.specs.Borrow.{Bor};
ghost use Rattle.std.specs.HashSet.{contains};
ghost use Rattle.psl_rules.specs.Parts.{Spelling, member_of};
ghost use Rattle.psl_rules.specs.Defaults as spec;
ghost use Rattle.psl_keys.specs.Belongs.{HoldsPairs, has_member, named, same_pair};

use psl_parts::blocks_of;
use psl_text::{Block, Entry, Tree, Word};
use qe_text::Memory;
use std::alloc::Global;
use std::collections::HashSet;
use std::marker::Model;

/// The name of an enum, and that of a member.
type Pair<'a> = (&'a str, &'a str);

/// A tree, with the members of its enums to look up.
#[derive(Drop)]
pub struct Members<'a> {
    tree: &'a Tree,
    pairs: HashSet<Pair<'a>>,
}

impl<'a> Model for Members<'a> {
    ghost use Rattle.psl_text.specs.declared.tree.Tree.{Tree};
    ghost use Rattle.psl_rules.specs.Defaults.{is_member_of};
    ghost use Rattle.psl_keys.specs.Belongs.{HoldsPairs};
    ghost use Rattle.psl_text.specs.contracts.tree.Term as term;
    ghost use Rattle.std.specs.Coded.{codes};

    ghost Value = { Tree };

    ghost coded = { Prim.hlevel (codes, term.the_row.coded) };

    ghost view = { λ m. m.tree.now };

    ghost invariant = { λ m. HoldsPairs m.pairs (is_member_of m.tree.now) };
}

/// Adds the member of an enum that an entry is, if it is one.
fn add_member<'a>(
    pairs: &mut HashSet<Pair<'a>>,
    block: &'a Block,
    entry: &'a Entry,
) -> Result<(), Memory>
    ensures { OnOk result ((pair : Bor Spelling × Bor Spelling) → contains same_pair pairs.new pair ≡ (contains same_pair pairs.old pair || (bytes_eq block.now.name.text pair.0.now && named pair.1.now (option_to_list (member_of entry.now))))) }
{
    match entry {
        Entry::Setting { .. } => Ok(()),
        Entry::Member { name, .. } => {
            pairs.insert((block.name.text.as_str(), name.text.as_str()))?;
            Ok(())
        }
        Entry::Field { .. } => Ok(()),
        Entry::Block { .. } => Ok(()),
    }
}

/// Adds the members of an enum.
fn add_members<'a>(pairs: &mut HashSet<Pair<'a>>, block: &'a Block) -> Result<(), Memory>
    ensures { OnOk result ((pair : Bor Spelling × Bor Spelling) → contains same_pair pairs.new pair ≡ (contains same_pair pairs.old pair || has_member pair.0.now pair.1.now block.now)) }
{
    for entry in block.entries.as_slice() {
        add_member(pairs, block, entry)?;
    }
    Ok(())
}

/// The members of all enums.
fn pairs_of(alloc: Global, tree: &Tree) -> Result<HashSet<Pair<'_>>, Memory>
    ensures { IfOk result (λ pairs. HoldsPairs pairs (spec.is_member_of tree.now)) }
{
    let mut pairs = HashSet::new(alloc);
    for block in blocks_of(alloc, tree, Word::Enum)?.as_slice() {
        add_members(&mut pairs, block)?;
    }
    Ok(pairs)
}

impl<'a> Members<'a> {
    pub fn of(alloc: Global, tree: &'a Tree) -> Result<Members<'a>, Memory>
        ensures { IfOk result (λ members. members ≡ tree.now) }
    {
        let pairs = pairs_of(alloc, tree)?;
        Ok(Members { tree, pairs })
    }

    /// Whether a name is that of a member of the enum that is called so.
    pub fn has(&self, kind: &str, name: &str) -> bool
        ensures { result ≡ spec.is_member_of self.now kind.now name.now }
    {
        self.pairs.contains(&(kind, name))
    }
}
