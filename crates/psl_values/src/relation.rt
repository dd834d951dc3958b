//! Relations, from the ends that hold them.
ghost use Rattle.std.specs.Prelude.{◌≡◌, ◌++◌, IfOk, OnOk, map, option_copied, bytes_eq, codes, if◌then◌else◌};
ghost use Rattle.std.specs.List.{flat_map};
ghost use Rattle.qe_base.specs.declared.schema.Action.TheVariants as action;
ghost use Rattle.psl_rules.specs.Relations.{partners_among};
ghost use Rattle.psl_sound.specs.SchemaOf as spec;

use crate::numbers::Models;
use psl_columns::column_numbers;
use psl_parts::Types;
use psl_relations::{End, Sides, TreeIndex, action, ends, holders, partners};
use qe_base::{Action, Relation};
use qe_text::{Items, Memory};
use std::alloc::Global;

fn action_named(name: &str) -> Action
    ensures { result ≡ if bytes_eq name.now (codes "Cascade") then action.Cascade else (if bytes_eq name.now (codes "Restrict") then action.Restrict else action.SetNull) }
{
    if name == "Cascade" {
        Action::Cascade
    } else if name == "Restrict" {
        Action::Restrict
    } else {
        Action::SetNull
    }
}

/// The action of this name, and another where there is none.
fn action_or(otherwise: Action, name: Option<&str>) -> Action
    ensures { result ≡ spec.action_or otherwise (option_copied name.entry) }
{
    match name {
        Some(name) => action_named(name),
        None => otherwise,
    }
}

/// What a delete does where nothing is said.
fn default_on_delete(optional: bool) -> Action
    ensures { result ≡ spec.default_on_delete optional }
{
    if optional {
        Action::SetNull
    } else {
        Action::Restrict
    }
}

/// The relation that the one end holds, with the other as its partner.
fn relation_between(
    alloc: Global,
    models: &Models,
    holder: &End,
    target: &End,
) -> Result<Relation, Memory>
    ensures { IfOk result (λ relation. relation ≡ spec.relation_between models.now holder.now target.now) }
{
    let child = holder.model();
    let parent = target.model();
    let own = holder.own_names(alloc)?;
    let other = holder.other_names(alloc)?;
    let optional = holder.is_optional();
    Ok(Relation {
        child: models.number(&child.name.text)?,
        child_field: holder.field().name().text.copy(alloc)?,
        child_columns: column_numbers(alloc, models.types(), child, own.as_slice())?,
        parent: models.number(&parent.name.text)?,
        parent_field: target.field().name().text.copy(alloc)?,
        parent_columns: column_numbers(alloc, models.types(), parent, other.as_slice())?,
        many: target.is_list(),
        optional,
        on_delete: action_or(default_on_delete(optional), action(holder, "onDelete")),
        on_update: action_or(Action::Cascade, action(holder, "onUpdate")),
    })
}

/// Appends the relations of an end with these partners.
fn push_relations(
    alloc: Global,
    relations: &mut Items<Relation>,
    models: &Models,
    holder: &End,
    partners: &[&End],
) -> Result<(), Memory>
    ensures { OnOk result (relations.new ≡ relations.old ++ map (spec.relation_between models.now holder.now) (map (λ end. end.now) partners.now)) }
{
    for target in partners {
        relations.push(relation_between(alloc, models, holder, target)?)?;
    }
    Ok(())
}

/// The relations that these ends hold, with their partners among all.
fn relations_held<'e, 'a>(
    alloc: Global,
    models: &Models,
    all: &Sides<'e, 'a>,
    held: &[&End<'a>],
) -> Result<Items<Relation>, Memory>
    ensures { IfOk result (λ relations. relations ≡ flat_map (λ holder. map (spec.relation_between models.now holder) (partners_among all.now holder)) (map (λ end. end.now) held.now)) }
{
    let mut relations = Items::new(alloc);
    for holder in held {
        let targets = partners(alloc, holder, all)?;
        push_relations(alloc, &mut relations, models, holder, targets.as_slice())?;
    }
    Ok(relations)
}

/// The relations of a tree, in the order of the fields that hold them.
pub fn relations(alloc: Global, types: &Types) -> Result<Items<Relation>, Memory>
    ensures { IfOk result (λ relations. relations ≡ spec.relations_of types.now) }
{
    let models = Models::of(alloc, types)?;
    let tree = TreeIndex::of(alloc, &*types)?;
    let ends = ends(alloc, &tree)?;
    let held = holders(alloc, ends.as_slice())?;
    let sides = Sides::of(alloc, ends.as_slice())?;
    relations_held(alloc, &models, &sides, held.as_slice())
}
