//! Models in numbers that never fall along a step, so that a step to a higher number lies on no cycle.
ghost use Rattle.std.specs.Prelude.{◌≡◌, IfOk, true, false};
ghost use Rattle.std.specs.List.{list_all};
ghost use Rattle.psl_rules.specs.Updates.{leads};
ghost use Rattle.psl_relations.specs.Ranks as spec;

use crate::walks::{Outgoing, Step};
use indexmap::IndexSet;
use qe_text::Memory;
use std::alloc::Global;
use std::collections::HashMap;
use std::marker::Model;

/// A model on the way, with how many of the steps that lead from it were followed.
type Visit<'a> = (&'a str, usize);

/// Goes on from a model on the way: along its next step, or back where none is left.
fn walk_on<'a>(
    finished: &mut Vec<&'a str>,
    seen: &mut IndexSet<&'a str>,
    way: &mut Vec<Visit<'a>>,
    outgoing: &Outgoing<'_, 'a>,
    visit: Visit<'a>,
) -> Result<(), Memory> {
    let (model, followed) = visit;
    let steps = outgoing.after(model);
    if followed < steps.len() {
        way.push((model, followed + 1))?;
        let to = steps[followed].to();
        if seen.insert(to)? {
            way.push((to, 0))?;
        }
    } else {
        finished.push(model)?;
    }
    Ok(())
}

/// Appends the models that steps lead to from one, each behind those that steps lead to from it alone.
fn finish_from<'a>(
    finished: &mut Vec<&'a str>,
    seen: &mut IndexSet<&'a str>,
    alloc: Global,
    outgoing: &Outgoing<'_, 'a>,
    from: &'a str,
    most: usize,
) -> Result<(), Memory> {
    let is_new = seen.insert(from)?;
    if !is_new {
        return Ok(());
    }
    let mut way = Vec::new(alloc);
    way.push((from, 0))?;
    for _turn in 0..most {
        match way.pop() {
            Some(visit) => walk_on(finished, seen, &mut way, outgoing, visit)?,
            None => return Ok(()),
        }
    }
    Ok(())
}

/// The models of the steps, those behind the others that a walk along the steps left later.
fn finished<'a>(
    alloc: Global,
    outgoing: &Outgoing<'_, 'a>,
    steps: &[Step<'a>],
    most: usize,
) -> Result<Vec<&'a str>, Memory> {
    let mut finished = Vec::new(alloc);
    let mut seen = IndexSet::new(alloc);
    for step in steps {
        finish_from(&mut finished, &mut seen, alloc, outgoing, step.from(), most)?;
    }
    Ok(finished)
}

/// Gives a number to the models that these steps lead to and that have none yet.
fn number_next<'a>(
    numbers: &mut HashMap<&'a str, usize>,
    left: &mut Vec<&'a str>,
    steps: &[&Step<'a>],
    number: usize,
) -> Result<(), Memory> {
    for step in steps {
        let model = step.to();
        let has_number = numbers.contains_key(model);
        if !has_number {
            numbers.insert(model, number)?;
            left.push(model)?;
        }
    }
    Ok(())
}

/// Gives a number to a model and to those that steps lead to from it, as far as they have none yet.
fn number_from<'a>(
    numbers: &mut HashMap<&'a str, usize>,
    alloc: Global,
    outgoing: &Outgoing<'_, 'a>,
    from: &'a str,
    number: usize,
    most: usize,
) -> Result<(), Memory> {
    if numbers.contains_key(from) {
        return Ok(());
    }
    numbers.insert(from, number)?;
    let mut left = Vec::new(alloc);
    left.push(from)?;
    for _turn in 0..most {
        match left.pop() {
            Some(model) => number_next(numbers, &mut left, outgoing.after(model), number)?,
            None => return Ok(()),
        }
    }
    Ok(())
}

/// The steps in the other direction.
fn turned<'a>(alloc: Global, steps: &[Step<'a>]) -> Result<Vec<Step<'a>>, Memory> {
    let mut turned = Vec::new(alloc);
    for step in steps {
        turned.push(step.turned())?;
    }
    Ok(turned)
}

/// Numbers of models, equal where steps lead from one to the other and back: the models are walked through
/// twice, along the steps and then, from those that were left last, against them.
fn numbered<'a>(
    alloc: Global,
    outgoing: &Outgoing<'_, 'a>,
    steps: &[Step<'a>],
) -> Result<HashMap<&'a str, usize>, Memory> {
    let most = steps.len().saturating_mul(3).saturating_add(1);
    let mut finished = finished(alloc, outgoing, steps, most)?;
    let turned = turned(alloc, steps)?;
    let incoming = Outgoing::of(alloc, turned.as_slice())?;
    let mut numbers = HashMap::new(alloc);
    for number in 0..finished.len() {
        if let Some(model) = finished.pop() {
            number_from(&mut numbers, alloc, &incoming, model, number, most)?;
        }
    }
    Ok(numbers)
}

/// The number of a model, and 0 where it has none.
fn number_of<'a>(numbers: &HashMap<&'a str, usize>, model: &str) -> usize
    ensures { result ≡ spec.number_of numbers.now model.now }
{
    numbers.get(model).copied().unwrap_or(0)
}

/// Whether no step leads to a lower number.
fn all_ascend<'a>(numbers: &HashMap<&'a str, usize>, steps: &[Step<'a>]) -> bool
    ensures { result ≡ list_all (spec.ascends numbers.now) steps.now }
{
    for step in steps {
        if number_of(numbers, step.from()) > number_of(numbers, step.to()) {
            return false;
        }
    }
    true
}

/// Numbers of models that no step leads down: those that were found, or none where they are wrong.
#[tactic(auto, using(crate::proofs::Ranked::none_down))]
fn ascending<'a>(
    alloc: Global,
    outgoing: &Outgoing<'_, 'a>,
    steps: &[Step<'a>],
) -> Result<HashMap<&'a str, usize>, Memory>
    ensures { IfOk result (λ numbers. list_all (spec.ascends numbers) steps.now ≡ true) }
{
    let numbers = numbered(alloc, outgoing, steps)?;
    if all_ascend(&numbers, steps) {
        return Ok(numbers);
    }
    Ok(HashMap::new(alloc))
}

/// Steps, in groups of those that lead from the same model, with numbers of the models that no step leads
/// down.
#[derive(Drop)]
pub struct Ranked<'s, 'a> {
    outgoing: Outgoing<'s, 'a>,
    numbers: HashMap<&'a str, usize>,
}

impl<'s, 'a> Model for Ranked<'s, 'a> {
    ghost use Rattle.std.specs.Prelude.{◌≡◌, List, true};
    ghost use Rattle.std.specs.List.{list_all};
    ghost use Rattle.psl_rules.specs.Updates.{Step};
    ghost use Rattle.psl_relations.specs.Ranks.{ascends};

    ghost Value = { List Step };

    ghost view = { λ r. r.outgoing };

    ghost invariant = { λ r. list_all (ascends r.numbers) r.outgoing ≡ true };
}

impl<'s, 'a> Ranked<'s, 'a> {
    pub fn of(alloc: Global, steps: &'s [Step<'a>]) -> Result<Ranked<'s, 'a>, Memory>
        ensures { IfOk result (λ ranked. ranked ≡ steps.now) }
    {
        let outgoing = Outgoing::of(alloc, steps)?;
        let numbers = ascending(alloc, &outgoing, steps)?;
        Ok(Ranked { outgoing, numbers })
    }

    pub fn outgoing(&self) -> &Outgoing<'s, 'a>
        ensures { result.now ≡ self.now }
    {
        &self.outgoing
    }

    /// Whether a step leads to a higher number, from which none leads back.
    #[tactic(auto, using(crate::proofs::Ranked::up_is_off))]
    pub fn leads_up(&self, step: &Step<'a>) -> bool
        ensures { result ≡ true → leads self.now step.now.to step.now.from ≡ false }
    {
        number_of(&self.numbers, step.from()) < number_of(&self.numbers, step.to())
    }
}
