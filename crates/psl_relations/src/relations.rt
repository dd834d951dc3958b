//! Relations: pairs of fields that lead to each other's model.
ghost use Rattle.std.specs.Prelude.{◌≡◌, ◌==◌, ◌++◌, IfOk, OnOk, map, length, not, option_copied};
ghost use Rattle.std.specs.List.{enumerate_from};
ghost use Rattle.psl_rules.specs.Parts.{first, failing};
ghost use Rattle.psl_rules.specs.Names.{is_optional};
ghost use Rattle.psl_rules.specs.Relations as spec;

use crate::model_index::ModelIndex;
use crate::sides::Sides;
use crate::tree_index::TreeIndex;
use psl_parts::{Field, Types, given, given_names, given_text, noted};
use psl_text::{Attribute, Block, Entry};
use qe_text::Memory;
use std::alloc::Global;
use std::marker::Model;

/// One end of a relation: a field, the model that it stands in, and its number among all such fields.
#[derive(Drop)]
pub struct End<'a> {
    number: usize,
    model: &'a ModelIndex<'a>,
    field: Field<'a>,
}

impl<'a> Model for End<'a> {
    ghost use Rattle.psl_rules.specs.Relations.{End};
    ghost use Rattle.psl_text.specs.contracts.tree.Term as term;
    ghost use Rattle.std.specs.Coded.{codes};

    ghost Value = { End };

    ghost coded = { Prim.hlevel (codes, term.the_row.coded) };

    ghost view = { λ e. record { number = e.number; model = e.model.now; field = e.field } };
}

impl<'a> End<'a> {
    /// A field as an end, in its model, with its number.
    pub fn of(number: usize, model: &'a ModelIndex<'a>, field: Field<'a>) -> End<'a>
        ensures { result ≡ spec.end_at (number, spec.standing_in model.now field.entry) }
    {
        End {
            number,
            model,
            field,
        }
    }

    /// The number among the fields that lead to models.
    fn number(&self) -> usize
        ensures { result ≡ self.now.number }
    {
        self.number
    }

    pub fn model(&self) -> &'a Block
        ensures { result.now ≡ self.now.model }
    {
        self.index().model()
    }

    /// The model, with what is looked up in it.
    pub fn index(&self) -> &'a ModelIndex<'a>
        ensures { result.now ≡ self.now.model }
    {
        self.model
    }

    pub fn field(&self) -> &Field<'a>
        ensures { result.now ≡ self.now.field }
    {
        &self.field
    }

    /// The place of the field's name.
    pub fn place(&self) -> usize
        ensures { result ≡ spec.end_place self.now }
    {
        self.field().name().at
    }

    /// The field's `@relation`.
    pub fn relation(&self) -> Option<&'a Attribute>
        ensures { option_copied result ≡ spec.relation_of self.now }
    {
        self.field().attribute("relation")
    }

    pub fn relation_name(&self) -> Option<&'a str>
        ensures { option_copied result ≡ spec.relation_name self.now }
    {
        match self.relation() {
            Some(relation) => given_text(relation, "name", true),
            None => None,
        }
    }

    fn gives_part(&self, part: &str) -> bool
        ensures { result ≡ spec.gives_part part.now self.now }
    {
        match self.relation() {
            Some(relation) => given(relation, part, false).is_some(),
            None => false,
        }
    }

    fn part_names(&self, alloc: Global, part: &str) -> Result<Vec<&'a str>, Memory>
        ensures { IfOk result (λ names. map (λ name. name.now) names.items ≡ spec.part_names part.now self.now) }
    {
        match self.relation() {
            Some(relation) => given_names(alloc, relation, part, false),
            None => Ok(Vec::new(alloc)),
        }
    }

    pub fn has_fields(&self) -> bool
        ensures { result ≡ spec.has_fields self.now }
    {
        self.gives_part("fields")
    }

    fn has_references(&self) -> bool
        ensures { result ≡ spec.has_references self.now }
    {
        self.gives_part("references")
    }

    fn has_action(&self) -> bool
        ensures { result ≡ spec.has_action self.now }
    {
        self.gives_part("onDelete") || self.gives_part("onUpdate")
    }

    /// The fields that hold the foreign key.
    pub fn own_names(&self, alloc: Global) -> Result<Vec<&'a str>, Memory>
        ensures { IfOk result (λ names. map (λ name. name.now) names.items ≡ spec.own_names self.now) }
    {
        self.part_names(alloc, "fields")
    }

    /// The fields of the other model that it refers to.
    pub fn other_names(&self, alloc: Global) -> Result<Vec<&'a str>, Memory>
        ensures { IfOk result (λ names. map (λ name. name.now) names.items ≡ spec.other_names self.now) }
    {
        self.part_names(alloc, "references")
    }

    pub fn is_list(&self) -> bool
        ensures { result ≡ spec.is_list self.now }
    {
        self.field().is_list()
    }

    pub fn is_optional(&self) -> bool
        ensures { result ≡ is_optional self.now.field.mark }
    {
        self.field().is_optional()
    }

    /// Whether the field leads to a model of this name.
    pub fn leads_to(&self, model: &Block) -> bool
        ensures { result ≡ spec.leads_to self.now model.now }
    {
        self.field().kind().text.is_same(model.name.text.as_str())
    }

    /// Whether the other is another field.
    pub fn is_other(&self, other: &End) -> bool
        ensures { result ≡ not (self.now.number == other.now.number) }
    {
        self.number() != other.number()
    }

    fn stands_together(&self) -> bool
        ensures { result ≡ spec.stand_together self.now }
    {
        let has_fields = self.has_fields();
        let has_references = self.has_references();
        let holds = has_fields && has_references;
        holds || (!has_fields && !has_references && !self.has_action())
    }

    /// Whether the one holds the foreign key, and the other is a list or optional.
    fn is_held_by(&self, holder: &End) -> bool
        ensures { result ≡ spec.is_held_by holder.now self.now }
    {
        let has_key = holder.has_fields() && !self.has_fields();
        has_key && !holder.is_list() && (self.is_list() || self.is_optional())
    }
}

/// The two ends of a relation, the one that stands first in the text before the other.
#[derive(Drop)]
pub struct Pair<'e, 'a> {
    first: &'e End<'a>,
    second: &'e End<'a>,
}

impl<'e, 'a> Model for Pair<'e, 'a> {
    ghost use Rattle.psl_rules.specs.Relations.{Pair};
    ghost use Rattle.psl_text.specs.contracts.tree.Term as term;
    ghost use Rattle.std.specs.Coded.{codes};

    ghost Value = { Pair };

    ghost coded = { Prim.hlevel (codes, term.the_row.coded) };

    ghost view = { λ p. record { first = p.first.now; second = p.second.now } };
}

impl<'e, 'a> Pair<'e, 'a> {
    pub fn first(&self) -> &'e End<'a>
        ensures { result.now ≡ self.now.first }
    {
        self.first
    }

    pub fn second(&self) -> &'e End<'a>
        ensures { result.now ≡ self.now.second }
    {
        self.second
    }

    /// The place of the first end.
    pub fn place(&self) -> usize
        ensures { result ≡ spec.pair_place self.now }
    {
        self.first().place()
    }

    /// Whether both are lists, linked by a table of their own.
    pub fn is_linked(&self) -> bool
        ensures { result ≡ spec.is_linked self.now }
    {
        let first = self.first();
        let second = self.second();
        let are_lists = first.is_list() && second.is_list();
        are_lists && !first.has_fields() && !second.has_fields()
    }

    /// Whether one holds the foreign key of the other, or both are linked lists.
    fn is_whole(&self) -> bool
        ensures { result ≡ spec.is_pair self.now }
    {
        let first = self.first();
        let second = self.second();
        let is_held = second.is_held_by(first) || first.is_held_by(second);
        let stand_together = first.stands_together() && second.stands_together();
        stand_together && (is_held || self.is_linked())
    }
}

/// Appends the fields of a model that lead to models.
fn push_ends<'a>(
    ends: &mut Vec<End<'a>>,
    types: &Types,
    model: &'a ModelIndex<'a>,
) -> Result<(), Memory>
    ensures { OnOk result (ends.new.items ≡ ends.old.items ++ map spec.end_at (enumerate_from (length ends.old.items) (spec.leading_of types.now model.now))) }
{
    for entry in model.model().entries.as_slice() {
        if let Entry::Field {
            name,
            kind,
            mark,
            attributes,
            ..
        } = entry
        {
            if types.is_model(&kind.text) {
                let field = Field {
                    name,
                    kind,
                    mark: *mark,
                    attributes: attributes.as_slice(),
                };
                ends.push(End::of(ends.len(), model, field))?;
            }
        }
    }
    Ok(())
}

/// The fields that lead to models, in text order and numbered from 0.
pub fn ends<'a>(alloc: Global, models: &'a TreeIndex<'a>) -> Result<Vec<End<'a>>, Memory>
    ensures { IfOk result (λ ends. ends.items ≡ spec.ends models.now) }
{
    let mut ends = Vec::new(alloc);
    for model in models.all() {
        push_ends(&mut ends, models.types(), model)?;
    }
    Ok(ends)
}

/// The partners of an end.
#[tactic(auto, using(crate::proofs::Gathered::partners_found))]
pub fn partners<'e, 'a>(
    alloc: Global,
    end: &End<'a>,
    sides: &Sides<'e, 'a>,
) -> Result<Vec<&'e End<'a>>, Memory>
    ensures { IfOk result (λ found. map (λ other. other.now) found.items ≡ spec.partners_among sides.now end.now) }
{
    let mut found = Vec::new(alloc);
    for other in sides.leading_back(end) {
        if end.is_other(other) {
            found.push(*other)?;
        }
    }
    Ok(found)
}

/// Whether an end has exactly one partner.
#[tactic(auto, using(crate::proofs::Gathered::one_at_end, crate::proofs::Gathered::second_one, crate::proofs::Gathered::first_one, crate::proofs::Gathered::passed_by))]
fn has_one_partner<'e, 'a>(end: &End<'a>, sides: &Sides<'e, 'a>) -> bool
    ensures { result ≡ spec.has_one_partner sides.now end.now }
{
    let mut found = false;
    for other in sides.leading_back(end) {
        if end.is_other(other) {
            if found {
                return false;
            }
            found = true;
        }
    }
    found
}

/// The first end that hasn't exactly one partner.
fn first_unpaired(alloc: Global, ends: &[End]) -> Result<Option<usize>, Memory>
    ensures { IfOk result (λ found. found ≡ first (failing (spec.has_one_partner ends.now) spec.end_place ends.now)) }
{
    let sides = Sides::of(alloc, ends)?;
    let mut found = None;
    for end in ends {
        found = noted(found, !has_one_partner(end, &sides), end.place());
    }
    Ok(found)
}

/// Rule V16: each field that leads to a model has exactly one partner. Broken at its name.
pub fn ends_are_paired<'a>(
    alloc: Global,
    models: &'a TreeIndex<'a>,
) -> Result<Option<usize>, Memory>
    ensures { IfOk result (λ found. found ≡ first (spec.ends_are_paired models.now)) }
{
    let ends = ends(alloc, models)?;
    first_unpaired(alloc, ends.as_slice())
}

/// Appends the pairs of an end with those of its partners that stand behind it.
fn push_pairs<'e, 'a>(
    pairs: &mut Vec<Pair<'e, 'a>>,
    end: &'e End<'a>,
    partners: &[&'e End<'a>],
) -> Result<(), Memory>
    ensures { OnOk result (pairs.new.items ≡ pairs.old.items ++ spec.pairs_with end.now (map (λ other. other.now) partners.now)) }
{
    for other in partners {
        if end.number() < other.number() {
            pairs.push(Pair {
                first: end,
                second: other,
            })?;
        }
    }
    Ok(())
}

/// The pairs of these ends, in the order of their first ends.
pub fn pairs<'e, 'a>(alloc: Global, ends: &'e [End<'a>]) -> Result<Vec<Pair<'e, 'a>>, Memory>
    ensures { IfOk result (λ pairs. pairs.items ≡ spec.pairs_among ends.now) }
{
    let sides = Sides::of(alloc, ends)?;
    let mut pairs = Vec::new(alloc);
    for end in ends {
        let partners = partners(alloc, end, &sides)?;
        push_pairs(&mut pairs, end, partners.as_slice())?;
    }
    Ok(pairs)
}

/// The first pair that neither has one holder nor links two lists.
fn first_broken_pair(pairs: &[Pair]) -> Option<usize>
    ensures { result ≡ first (failing spec.is_pair spec.pair_place pairs.now) }
{
    let mut found = None;
    for pair in pairs {
        found = noted(found, !pair.is_whole(), pair.place());
    }
    found
}

/// Rule V17: `fields` and `references` stand together, on one side that is no list, and the other side is
/// a list or optional; or on neither side, and both are lists. Actions stand beside them. Broken at the
/// name of the pair's first field.
pub fn pairs_have_a_holder<'a>(
    alloc: Global,
    models: &'a TreeIndex<'a>,
) -> Result<Option<usize>, Memory>
    ensures { IfOk result (λ found. found ≡ first (spec.pairs_have_a_holder models.now)) }
{
    let ends = ends(alloc, models)?;
    let pairs = pairs(alloc, ends.as_slice())?;
    Ok(first_broken_pair(pairs.as_slice()))
}
