//! What stands for an accepted tree, and why another has nothing that does.
ghost use Rattle.std.specs.Prelude.{◌≡◌, ℕ, Err, IfOk, OnOk, IfErr};
ghost use Rattle.psl_rules.specs.Accepted.{IsAccepted};
ghost use Rattle.psl_sound.specs.SchemaOf.{schema_of};
ghost use Rattle.psl_schema.specs.declared.checking.SchemaFault.TheVariants as fault;
ghost use Rattle.psl_schema.specs.Faults.{IsFaultOf};

use crate::first_breach;
use psl_columns::choices;
use psl_parts::Types;
use psl_text::Tree;
use psl_values::{links, relations, tables};
use qe_schema::Schema;
use qe_text::Memory;
use std::alloc::Global;

/// Why a tree has no schema.
#[derive(Clone, Copy, Debug, PartialEq, Eq)]
pub enum SchemaFault {
    /// The rule of the least number that is broken, and the first place in the text that breaks it.
    Broken { rule: u8, at: usize },
    /// An allocation was refused.
    Memory,
}

impl From<Memory> for SchemaFault {
    ghost use Rattle.psl_schema.specs.declared.checking.SchemaFault.TheVariants.{Memory};
    ghost use Rattle.std.specs.Prelude.{◌≡◌};

    ghost from_gives = { λ _ e. e ≡ Memory };

    fn from(_: Memory) -> SchemaFault {
        SchemaFault::Memory
    }
}

/// The schema of an accepted tree.
fn schema(alloc: Global, tree: &Tree) -> Result<Schema, Memory>
    requires { IsAccepted tree.now }
    ensures { IfOk result (λ schema. schema ≡ schema_of tree.now) }
{
    let types = Types::of(alloc, tree)?;
    let tables = tables(alloc, &types)?;
    let relations = relations(alloc, &types)?;
    let links = links(alloc, &types)?;
    let choices = choices(alloc, tree)?;
    Ok(Schema::new(tables, relations, links, choices))
}

/// The schema of a tree, or the first rule that it breaks.
pub fn check(alloc: Global, tree: &Tree) -> Result<Schema, SchemaFault>
    ensures value { IfOk result (λ schema. schema ≡ schema_of tree.now) }
    ensures accepted { OnOk result (IsAccepted tree.now) }
    ensures fault { IfErr result (IsFaultOf tree.now) }
    ensures unbroken { (rule at : ℕ) → IsAccepted tree.now → result ≡ Err (fault.Broken rule at) → ⊥ }
{
    match first_breach(alloc, tree)? {
        Some(breach) => {
            Err(SchemaFault::Broken {
                rule: breach.rule,
                at: breach.at,
            })
        }
        None => Ok(schema(alloc, tree)?),
    }
}
