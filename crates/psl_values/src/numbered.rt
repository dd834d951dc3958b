//! The places of ends and links, to look up.
ghost use Rattle.std.specs.Prelude.{◌≡◌, ◌==◌, IfOk, map, filter, not, position, option_map, option_copied};
ghost use Rattle.std.specs.HashMap.{get};
ghost use Rattle.std.specs.List.{find};
ghost use Rattle.psl_rules.specs.Relations.{is_partner, relation_name};
ghost use Rattle.psl_rules.specs.Relations as rules;
ghost use Rattle.psl_rules.specs.Foreign.{holders};
ghost use Rattle.psl_rules.specs.Stored.{linked};
ghost use Rattle.psl_relations.specs.Back.{Side, same_side};
ghost use Rattle.psl_values.specs.Named as named;
ghost use Rattle.psl_sound.specs.SchemaOf as spec;

use crate::link::{side_a, side_b};
use crate::numbers::Models;
use psl_columns::Enums;
use psl_parts::{Field, Types, first_places, grouped};
use psl_relations::{End, ModelIndex, Pair, holders};
use psl_text::Block;
use qe_base::TableId;
use qe_text::Memory;
use std::alloc::Global;
use std::collections::HashMap;
use std::marker::Model;

/// The names of an end's model and field.
type Named<'a> = (&'a str, &'a str);

/// The model that an end stands in, the one that it leads to, and the name of its relation.
type Side<'a> = (&'a str, &'a str, Option<&'a str>);

/// A tree, with the places of its ends, of those that hold foreign keys and of its pairs of lists, to
/// number them.
#[derive(Drop)]
pub struct Numbered<'s, 'a> {
    models: &'s Models<'a, 'a>,
    numbers: HashMap<Named<'a>, usize>,
    places: HashMap<Named<'a>, usize>,
    /// The ends that hold foreign keys, by their sides.
    sides: HashMap<Side<'a>, Vec<(usize, &'s End<'a>)>>,
    places_a: HashMap<Named<'a>, usize>,
    places_b: HashMap<Named<'a>, usize>,
}

impl<'s, 'a> Model for Numbered<'s, 'a> {
    ghost use Rattle.std.specs.Prelude.{◌≡◌, [], map};
    ghost use Rattle.std.specs.Option.{option_map_or};
    ghost use Rattle.std.specs.HashMap.{get};
    ghost use Rattle.psl_text.specs.declared.tree.Tree.{Tree};
    ghost use Rattle.psl_rules.specs.Relations.{ends};
    ghost use Rattle.psl_rules.specs.Foreign.{holders};
    ghost use Rattle.psl_rules.specs.Stored.{linked};
    ghost use Rattle.psl_relations.specs.Back.{Side, same_side};
    ghost use Rattle.psl_values.specs.Named.{GivesPlaces, lie_on, placed, same_named};
    ghost use Rattle.psl_sound.specs.SchemaOf.{side_a, side_b};
    ghost use Rattle.psl_text.specs.contracts.tree.Term as term;
    ghost use Rattle.std.specs.Coded.{codes};

    ghost Value = { Tree };

    ghost coded = { Prim.hlevel (codes, term.the_row.coded) };

    ghost view = { λ s. s.models.now };

    ghost invariant = { λ s. GivesPlaces (get same_named s.numbers) (ends s.models.now) × GivesPlaces (get same_named s.places) (holders s.models.now) × ((side : Side) → map placed (option_map_or (λ group. group.items) (get same_side s.sides side) []) ≡ lie_on side (holders s.models.now)) × GivesPlaces (get same_named s.places_a) (map side_a (linked s.models.now)) × GivesPlaces (get same_named s.places_b) (map side_b (linked s.models.now)) };
}

fn names_of<'a>(model: &'a Block, field: &Field<'a>) -> Named<'a>
    ensures model { result.0.now ≡ model.now.name.text }
    ensures field { result.1.now ≡ field.now.name.text }
{
    (model.name.text.as_str(), field.name().text.as_str())
}

fn names<'a>(end: &End<'a>) -> Named<'a>
    ensures model { result.0.now ≡ end.now.model.name.text }
    ensures field { result.1.now ≡ end.now.field.name.text }
{
    names_of(end.model(), end.field())
}

/// The names of all these ends.
fn names_of_all<'a>(alloc: Global, ends: &[End<'a>]) -> Result<Vec<Named<'a>>, Memory>
    ensures { IfOk result (λ names. map named.texts_of names.items ≡ map named.end_names ends.now) }
{
    let mut all = Vec::new(alloc);
    for end in ends {
        all.push(names(end))?;
    }
    Ok(all)
}

/// The first place of each of all these ends, by its names.
fn all_places<'a>(alloc: Global, ends: &[End<'a>]) -> Result<HashMap<Named<'a>, usize>, Memory>
    ensures { IfOk result (λ places. named.GivesPlaces (get named.same_named places) ends.now) }
{
    let names = names_of_all(alloc, ends)?;
    let places = first_places(alloc, names.as_slice())?;
    Ok(places)
}

/// The names of these ends.
fn all_names<'a>(alloc: Global, ends: &[&End<'a>]) -> Result<Vec<Named<'a>>, Memory>
    ensures { IfOk result (λ names. map named.texts_of names.items ≡ map named.end_names (map (λ end. end.now) ends.now)) }
{
    let mut all = Vec::new(alloc);
    for end in ends {
        all.push(names(end))?;
    }
    Ok(all)
}

/// The first place of an end, by its names.
fn end_places<'a>(alloc: Global, ends: &[&End<'a>]) -> Result<HashMap<Named<'a>, usize>, Memory>
    ensures { IfOk result (λ places. named.GivesPlaces (get named.same_named places) (map (λ end. end.now) ends.now)) }
{
    let names = all_names(alloc, ends)?;
    let places = first_places(alloc, names.as_slice())?;
    Ok(places)
}

fn side_of<'a>(end: &End<'a>) -> Side<'a>
    ensures model { result.0.now ≡ end.now.model.name.text }
    ensures target { result.1.now ≡ end.now.field.type.text }
    ensures name { option_copied result.2 ≡ relation_name end.now }
{
    (
        end.model().name.text.as_str(),
        end.field().kind().text.as_str(),
        end.relation_name(),
    )
}

/// The side on which an end's partner lies.
fn side_across<'a>(end: &End<'a>) -> Side<'a>
    ensures model { result.0.now ≡ end.now.field.type.text }
    ensures target { result.1.now ≡ end.now.model.name.text }
    ensures name { option_copied result.2 ≡ relation_name end.now }
{
    (
        end.field().kind().text.as_str(),
        end.model().name.text.as_str(),
        end.relation_name(),
    )
}

/// The ends, each with its side and its place.
fn with_sides<'e, 'a>(
    alloc: Global,
    ends: &[&'e End<'a>],
) -> Result<Vec<(Side<'a>, (usize, &'e End<'a>))>, Memory>
    ensures { IfOk result (λ sided. (side : Side) → map (λ one. named.placed one.1) (filter (λ one. same_side one.0 side) sided.items) ≡ named.lie_on side (map (λ end. end.now) ends.now)) }
{
    let mut sided = Vec::new(alloc);
    for (number, end) in ends.iter().enumerate() {
        let side = side_of(end);
        sided.push((side, (number, *end)))?;
    }
    Ok(sided)
}

/// The ends that are side A of these pairs.
fn all_sides_a<'e, 'a>(alloc: Global, lists: &[&Pair<'e, 'a>]) -> Result<Vec<&'e End<'a>>, Memory>
    ensures { IfOk result (λ sides. map (λ end. end.now) sides.items ≡ map spec.side_a (map (λ pair. pair.now) lists.now)) }
{
    let mut sides = Vec::new(alloc);
    for pair in lists {
        sides.push(side_a(pair))?;
    }
    Ok(sides)
}

/// The ends that are side B of these pairs.
fn all_sides_b<'e, 'a>(alloc: Global, lists: &[&Pair<'e, 'a>]) -> Result<Vec<&'e End<'a>>, Memory>
    ensures { IfOk result (λ sides. map (λ end. end.now) sides.items ≡ map spec.side_b (map (λ pair. pair.now) lists.now)) }
{
    let mut sides = Vec::new(alloc);
    for pair in lists {
        sides.push(side_b(pair))?;
    }
    Ok(sides)
}

/// The place of the first of these ends that isn't the end itself.
fn first_other(group: &[(usize, &End)], end: &End) -> Option<usize>
    ensures { result ≡ option_map (λ one. one.0) (find (λ one. not (one.1.now.number == end.now.number)) group.now) }
{
    for (number, other) in group {
        if other.is_other(end) {
            return Some(*number);
        }
    }
    None
}

impl<'s, 'a> Numbered<'s, 'a> {
    /// A tree, with all its ends and all its pairs of lists.
    pub fn of(
        alloc: Global,
        models: &'s Models<'a, 'a>,
        ends: &'s [End<'a>],
        lists: &[&Pair<'s, 'a>],
    ) -> Result<Numbered<'s, 'a>, Memory>
        requires ends { ends.now ≡ rules.ends models.now }
        requires lists { map (λ pair. pair.now) lists.now ≡ linked models.now }
        ensures { IfOk result (λ numbered. numbered ≡ models.now) }
    {
        let held = holders(alloc, ends)?;
        let held = held.as_slice();
        let sided = with_sides(alloc, held)?;
        let all_a = all_sides_a(alloc, lists)?;
        let all_b = all_sides_b(alloc, lists)?;
        let numbers = all_places(alloc, ends)?;
        let places = end_places(alloc, held)?;
        let sides = grouped(alloc, sided.as_slice())?;
        let places_a = end_places(alloc, all_a.as_slice())?;
        let places_b = end_places(alloc, all_b.as_slice())?;
        Ok(Numbered {
            models,
            numbers,
            places,
            sides,
            places_a,
            places_b,
        })
    }

    pub fn types(&self) -> &'a Types<'a>
        ensures { result.now ≡ self.now }
    {
        self.models.types()
    }

    /// The enums of the tree.
    pub fn enums(&self) -> &Enums<'a>
        ensures { result.now ≡ self.now }
    {
        self.models.enums()
    }

    /// The number of a link's table.
    pub fn link(&self, number: usize) -> Result<TableId, Memory>
        ensures { IfOk result (λ table. table ≡ record { 0 = spec.link_number self.now number }) }
    {
        self.models.link(number)
    }

    /// The number of a field among the ends.
    fn number(&self, model: &'a Block, field: &Field<'a>) -> usize
        ensures { result ≡ spec.end_number self.now model.now field.now }
    {
        let names = names_of(model, field);
        self.numbers.get(&names).copied().unwrap_or(0)
    }

    /// The end that a field of a model is.
    pub fn end(&self, model: &'a ModelIndex<'a>, field: Field<'a>) -> End<'a>
        ensures { result ≡ spec.end_of self.now model.now field.entry }
    {
        End::of(self.number(model.model(), &field), model, field)
    }

    /// The place of an end among those that hold foreign keys.
    pub fn holder_place(&self, end: &End<'a>) -> Option<usize>
        ensures { result ≡ position (spec.is_same_end end.now) (holders self.now) }
    {
        self.places.get(&names(end)).copied()
    }

    /// The place of an end's partner among those that hold foreign keys.
    pub fn target_place(&self, end: &End<'a>) -> Option<usize>
        ensures { result ≡ position (λ holder. is_partner holder end.now) (holders self.now) }
    {
        match self.sides.get(&side_across(end)) {
            Some(group) => first_other(group.as_slice(), end),
            None => None,
        }
    }

    /// The place of the pair whose side A an end is.
    pub fn side_a_place(&self, end: &End<'a>) -> Option<usize>
        ensures { result ≡ position (λ pair. spec.is_same_end end.now (spec.side_a pair)) (linked self.now) }
    {
        self.places_a.get(&names(end)).copied()
    }

    /// The place of the pair whose side B an end is.
    pub fn side_b_place(&self, end: &End<'a>) -> Option<usize>
        ensures { result ≡ position (λ pair. spec.is_same_end end.now (spec.side_b pair)) (linked self.now) }
    {
        self.places_b.get(&names(end)).copied()
    }
}
