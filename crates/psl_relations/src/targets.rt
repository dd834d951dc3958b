//! Models, to look up those that an end leads to.
ghost use Rattle.std.specs.Prelude.{◌≡◌, IfOk, map, filter};
ghost use Rattle.std.specs.Borrow.{Bor};
ghost use Rattle.psl_rules.specs.Parts.{Spelling, models};
ghost use Rattle.psl_rules.specs.Relations.{leads_to};
ghost use Rattle.psl_relations.specs.Back.{same_text};
ghost use Rattle.psl_relations.specs.Called.{is_called};

use crate::model_index::ModelIndex;
use crate::relations::End;
use crate::tree_index::TreeIndex;
use psl_parts::grouped;
use qe_text::Memory;
use std::alloc::Global;
use std::collections::HashMap;
use std::marker::Model;

/// A tree, with its models in groups of those that have the same name.
#[derive(Drop)]
pub struct Targets<'a> {
    tree: &'a TreeIndex<'a>,
    groups: HashMap<&'a str, Vec<&'a ModelIndex<'a>>>,
    /// The group of a name that no model has.
    none: Vec<&'a ModelIndex<'a>>,
}

impl<'a> Model for Targets<'a> {
    ghost use Rattle.std.specs.Prelude.{◌≡◌, [], map, filter};
    ghost use Rattle.std.specs.Borrow.{Bor};
    ghost use Rattle.std.specs.Option.{option_map_or};
    ghost use Rattle.std.specs.HashMap.{get};
    ghost use Rattle.psl_text.specs.declared.tree.Tree.{Tree};
    ghost use Rattle.psl_rules.specs.Parts.{Spelling, models};
    ghost use Rattle.psl_relations.specs.Back.{same_text};
    ghost use Rattle.psl_relations.specs.Called.{is_called};
    ghost use Rattle.psl_text.specs.contracts.tree.Term as term;
    ghost use Rattle.std.specs.Coded.{codes};

    ghost Value = { Tree };

    ghost coded = { Prim.hlevel (codes, term.the_row.coded) };

    ghost view = { λ m. m.tree.now };

    ghost invariant = { λ m. (m.none.items ≡ []) × ((name : Bor Spelling) → map (λ model. model.now) (option_map_or (λ group. group.items) (get same_text m.groups name) []) ≡ filter (is_called name.now) (models m.tree.now)) };
}

/// The models, each with its name.
#[tactic(auto, using(crate::proofs::Grouped::turn_model))]
fn with_names<'a>(
    alloc: Global,
    models: &'a [ModelIndex<'a>],
) -> Result<Vec<(&'a str, &'a ModelIndex<'a>)>, Memory>
    ensures { IfOk result (λ named. (name : Bor Spelling) → map (λ one. one.1.now) (filter (λ one. same_text one.0 name) named.items) ≡ filter (is_called name.now) models.now) }
{
    let mut named = Vec::new(alloc);
    for model in models {
        named.push((model.model().name.text.as_str(), model))?;
    }
    Ok(named)
}

impl<'a> Targets<'a> {
    pub fn of(alloc: Global, models: &'a TreeIndex<'a>) -> Result<Targets<'a>, Memory>
        ensures { IfOk result (λ targets. targets ≡ models.now) }
    {
        let named = with_names(alloc, models.all())?;
        let groups = grouped(alloc, named.as_slice())?;
        let none = Vec::new(alloc);
        Ok(Targets {
            tree: models,
            groups,
            none,
        })
    }

    /// The models that an end leads to.
    pub fn led_to(&self, end: &End<'a>) -> &[&'a ModelIndex<'a>]
        ensures { map (λ model. model.now) result.now ≡ filter (leads_to end.now) (models self.now) }
    {
        let name = end.field().kind().text.as_str();
        self.groups.get(&name).unwrap_or(&self.none).as_slice()
    }
}
