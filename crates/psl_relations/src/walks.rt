//! Steps from model to model, and where they lead.
ghost use Rattle.std.specs.Prelude.{◌≡◌, ◌||◌, IfOk, OnOk, filter, map, bytes_eq};
ghost use Rattle.std.specs.Borrow.{Bor};
ghost use Rattle.std.specs.List.{list_any};
ghost use Rattle.psl_rules.specs.Parts.{Spelling};
ghost use Rattle.qe_text.specs.Lists.{is_among};
ghost use Rattle.psl_rules.specs.Known.{Holds};
ghost use Rattle.psl_rules.specs.Updates as spec;
ghost use Rattle.psl_relations.specs.Back.{same_text};
ghost use Rattle.psl_relations.specs.Walks.{leads_from, Begins};

use crate::relations::End;
use indexmap::IndexSet;
use psl_parts::grouped;
use qe_text::Memory;
use std::alloc::Global;
use std::collections::HashMap;
use std::marker::Model;

/// A step from one model to another, by their names.
#[derive(Drop)]
pub struct Step<'a> {
    from: &'a str,
    to: &'a str,
}

impl<'a> Model for Step<'a> {
    ghost use Rattle.psl_rules.specs.Updates.{Step};

    ghost Value = { Step };

    ghost view = { λ s. record { from = s.from.now; to = s.to.now } };
}

impl<'a> Step<'a> {
    /// From the model that an arrow refers to to the one that it stands in.
    pub fn of(arrow: &End<'a>) -> Step<'a>
        ensures { result ≡ spec.step_of arrow.now }
    {
        Step {
            from: arrow.field().kind().text.as_str(),
            to: arrow.model().name.text.as_str(),
        }
    }

    pub fn from(&self) -> &'a str
        ensures { result.now ≡ self.now.from }
    {
        self.from
    }

    pub fn to(&self) -> &'a str
        ensures { result.now ≡ self.now.to }
    {
        self.to
    }

    /// The step in the other direction.
    pub fn turned(&self) -> Step<'a>
        ensures { result ≡ record { from = self.now.to; to = self.now.from } }
    {
        Step {
            from: self.to,
            to: self.from,
        }
    }
}

/// Steps, in groups of those that lead from the same model.
#[derive(Drop)]
pub struct Outgoing<'s, 'a> {
    steps: &'s [Step<'a>],
    groups: HashMap<&'a str, Vec<&'s Step<'a>>>,
    /// The group of a model from which no step leads.
    none: Vec<&'s Step<'a>>,
}

impl<'s, 'a> Model for Outgoing<'s, 'a> {
    ghost use Rattle.std.specs.Prelude.{◌≡◌, List, [], map, filter};
    ghost use Rattle.std.specs.Borrow.{Bor};
    ghost use Rattle.std.specs.Option.{option_map_or};
    ghost use Rattle.std.specs.HashMap.{get};
    ghost use Rattle.psl_rules.specs.Parts.{Spelling};
    ghost use Rattle.psl_rules.specs.Updates.{Step};
    ghost use Rattle.psl_relations.specs.Back.{same_text};
    ghost use Rattle.psl_relations.specs.Walks.{leads_from};

    ghost Value = { List Step };

    ghost view = { λ o. o.steps.now };

    ghost invariant = { λ o. (o.none.items ≡ []) × ((model : Bor Spelling) → map (λ step. step.now) (option_map_or (λ group. group.items) (get same_text o.groups model) []) ≡ filter (leads_from model.now) o.steps.now) };
}

/// The steps, each with the model that it leads from.
#[tactic(auto, using(crate::proofs::Stepped::turn_step))]
fn with_starts<'s, 'a>(
    alloc: Global,
    steps: &'s [Step<'a>],
) -> Result<Vec<(&'a str, &'s Step<'a>)>, Memory>
    ensures { IfOk result (λ keyed. (model : Bor Spelling) → map (λ one. one.1.now) (filter (λ one. same_text one.0 model) keyed.items) ≡ filter (leads_from model.now) steps.now) }
{
    let mut keyed = Vec::new(alloc);
    for step in steps {
        let from = step.from();
        keyed.push((from, step))?;
    }
    Ok(keyed)
}

impl<'s, 'a> Outgoing<'s, 'a> {
    pub fn of(alloc: Global, steps: &'s [Step<'a>]) -> Result<Outgoing<'s, 'a>, Memory>
        ensures { IfOk result (λ outgoing. outgoing ≡ steps.now) }
    {
        let keyed = with_starts(alloc, steps)?;
        let groups = grouped(alloc, keyed.as_slice())?;
        let none = Vec::new(alloc);
        Ok(Outgoing {
            steps,
            groups,
            none,
        })
    }

    /// The steps that lead from a model.
    pub fn after(&self, model: &'a str) -> &[&'s Step<'a>]
        ensures { map (λ step. step.now) result.now ≡ filter (leads_from model.now) self.now }
    {
        self.groups.get(&model).unwrap_or(&self.none).as_slice()
    }
}

/// Adds what the steps lead to, behind what was reached before.
fn follow<'a>(reached: &mut IndexSet<&'a str>, steps: &[&Step<'a>]) -> Result<(), Memory>
    ensures holds { OnOk result (Holds reached.new.keys (λ name. list_any (λ key. bytes_eq name key.now) reached.old.keys || is_among name (map (λ step. step.to) (map (λ step. step.now) steps.now)))) }
    ensures begins { OnOk result (Begins reached.old.keys reached.new.keys) }
{
    for step in steps {
        reached.insert(step.to())?;
    }
    Ok(())
}

/// The models that the steps lead to from one, which is among them. Each model's steps are followed once,
/// in the order in which the models are reached.
pub fn reached_from<'a>(
    alloc: Global,
    outgoing: &Outgoing<'_, 'a>,
    from: &'a str,
) -> Result<IndexSet<&'a str>, Memory>
    ensures { IfOk result (λ reached. Holds reached.keys (spec.leads outgoing.now from.now)) }
{
    let mut reached = IndexSet::new(alloc);
    reached.insert(from)?;
    let mut next = 0;
    'models: while next < reached.len() {
        let model = reached[next];
        follow(&mut reached, outgoing.after(model))?;
        next += 1;
    }
    Ok(reached)
}
