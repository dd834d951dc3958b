//! Changes of ids that cascade from model to model.
ghost use Rattle.std.specs.Prelude.{◌≡◌, IfOk, filter, map, not, option_copied};
ghost use Rattle.std.specs.List.{list_any};
ghost use Rattle.psl_rules.specs.Parts.{first, failing};
ghost use Rattle.psl_rules.specs.Parts as parts;
ghost use Rattle.psl_rules.specs.Relations.{end_place, has_fields};
ghost use Rattle.psl_rules.specs.Updates as spec;

use crate::foreign::{action, holders};
use crate::passed::is_behind;
use crate::ranks::Ranked;
use crate::referred::Referred;
use crate::relations::{End, ends};
use crate::tree_index::TreeIndex;
use crate::walks::{Step, reached_from};
use psl_parts::noted;
use qe_text::Memory;
use std::alloc::Global;

/// Whether an action of updates is Cascade, as it is where none is given.
fn cascades(action: Option<&str>) -> bool
    ensures { result ≡ spec.cascades (option_copied action.entry) }
{
    match action {
        Some(name) => name == "Cascade",
        None => true,
    }
}

/// Whether a field of the foreign key is among what relations to the same model refer to.
#[tactic(auto, using(crate::proofs::Exchanged::going_on))]
fn goes_on<'a>(alloc: Global, end: &End<'a>, referred: &Referred<'_, 'a>) -> Result<bool, Memory>
    ensures { IfOk result (λ goes_on. goes_on ≡ list_any (spec.goes_on end.now) (filter has_fields referred.now)) }
{
    let names = end.own_names(alloc)?;
    Ok(referred.has_one_of(end.model().name.text.as_str(), names.as_slice()))
}

/// Whether the updates of a relation cascade, and may cascade on.
fn is_arrow<'a>(alloc: Global, end: &End<'a>, referred: &Referred<'_, 'a>) -> Result<bool, Memory>
    ensures { IfOk result (λ is_arrow. is_arrow ≡ spec.is_arrow (filter has_fields referred.now) end.now) }
{
    if !cascades(action(end, "onUpdate")) {
        return Ok(false);
    }
    goes_on(alloc, end, referred)
}

/// Those of the holders whose updates cascade on.
fn arrows_among<'e, 'a>(
    alloc: Global,
    referred: &Referred<'_, 'a>,
    held: &[&'e End<'a>],
) -> Result<Vec<&'e End<'a>>, Memory>
    ensures { IfOk result (λ arrows. map (λ arrow. arrow.now) arrows.items ≡ filter (spec.is_arrow (filter has_fields referred.now)) (map (λ end. end.now) held.now)) }
{
    let mut arrows = Vec::new(alloc);
    for end in held {
        let is_arrow = is_arrow(alloc, end, referred)?;
        if is_arrow {
            arrows.push(*end)?;
        }
    }
    Ok(arrows)
}

/// The relations among these ends whose updates cascade on.
fn arrows<'e, 'a>(alloc: Global, ends: &'e [End<'a>]) -> Result<Vec<&'e End<'a>>, Memory>
    ensures { IfOk result (λ arrows. map (λ arrow. arrow.now) arrows.items ≡ filter (spec.is_arrow (filter has_fields ends.now)) (filter has_fields ends.now)) }
{
    let referred = Referred::by(alloc, ends)?;
    let held = holders(alloc, ends)?;
    arrows_among(alloc, &referred, held.as_slice())
}

/// The steps of the arrows.
fn steps<'a>(alloc: Global, arrows: &[&End<'a>]) -> Result<Vec<Step<'a>>, Memory>
    ensures { IfOk result (λ steps. steps.items ≡ map spec.step_of (map (λ arrow. arrow.now) arrows.now)) }
{
    let mut steps = Vec::new(alloc);
    for arrow in arrows {
        steps.push(Step::of(arrow))?;
    }
    Ok(steps)
}

/// Whether the steps lead back from the end of a step to its beginning.
fn is_on_cycle<'a>(alloc: Global, ranked: &Ranked<'_, 'a>, step: &Step<'a>) -> Result<bool, Memory>
    ensures { IfOk result (λ is. is ≡ spec.leads ranked.now step.now.to step.now.from) }
{
    if ranked.leads_up(step) {
        return Ok(false);
    }
    let reached = reached_from(alloc, ranked.outgoing(), step.to())?;
    Ok(reached.contains(step.from()))
}

/// What was found, with the place of this arrow too where it lies on a cycle.
#[tactic(auto, using(crate::proofs::Behind::passed))]
fn noted_arrow<'a>(
    alloc: Global,
    ranked: &Ranked<'_, 'a>,
    found: Option<usize>,
    arrow: &End<'a>,
) -> Result<Option<usize>, Memory>
    ensures { IfOk result (λ now. now ≡ parts.noted found (spec.is_on_cycle ranked.now arrow.now) (end_place arrow.now)) }
{
    let at = arrow.place();
    if is_behind(found, at) {
        return Ok(found);
    }
    let is_on_cycle = is_on_cycle(alloc, ranked, &Step::of(arrow))?;
    Ok(noted(found, is_on_cycle, at))
}

/// The first arrow from whose end the steps lead back to its beginning.
fn first_on_cycle<'a>(
    alloc: Global,
    arrows: &[&End<'a>],
    ranked: &Ranked<'_, 'a>,
) -> Result<Option<usize>, Memory>
    ensures { IfOk result (λ found. found ≡ first (failing (λ arrow. not (spec.is_on_cycle ranked.now arrow)) end_place (map (λ arrow. arrow.now) arrows.now))) }
{
    let mut found = None;
    for arrow in arrows {
        found = noted_arrow(alloc, ranked, found, arrow)?;
    }
    Ok(found)
}

/// Rule V24: take the relations whose updates cascade and one of whose fields is among what a relation to their
/// own model refers to, each as an arrow from the other model to the own one. No arrow lies on a cycle.
/// Broken at the name of its field.
pub fn updates_form_no_cycle<'a>(
    alloc: Global,
    models: &'a TreeIndex<'a>,
) -> Result<Option<usize>, Memory>
    ensures { IfOk result (λ found. found ≡ first (spec.updates_form_no_cycle models.now)) }
{
    let ends = ends(alloc, models)?;
    let arrows = arrows(alloc, ends.as_slice())?;
    let steps = steps(alloc, arrows.as_slice())?;
    let ranked = Ranked::of(alloc, steps.as_slice())?;
    first_on_cycle(alloc, arrows.as_slice(), &ranked)
}
