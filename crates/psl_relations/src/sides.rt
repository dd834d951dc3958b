//! Fields that lead to models, to look up those that lead back.
ghost use Rattle.std.specs.Prelude.{◌≡◌, IfOk, map, filter, option_copied};
ghost use Rattle.psl_rules.specs.Relations.{relation_name};
ghost use Rattle.psl_relations.specs.Back as spec;

use crate::relations::End;
use psl_parts::grouped;
use qe_text::Memory;
use std::alloc::Global;
use std::collections::HashMap;
use std::marker::Model;

/// The model that an end stands in, the one that it leads to, and the name of its relation.
type Side<'a> = (&'a str, &'a str, Option<&'a str>);

/// Ends of relations, in groups of those that lie on the same side.
#[derive(Drop)]
pub struct Sides<'e, 'a> {
    ends: &'e [End<'a>],
    groups: HashMap<Side<'a>, Vec<&'e End<'a>>>,
    /// The group of a side on which no end lies.
    none: Vec<&'e End<'a>>,
}

impl<'e, 'a> Model for Sides<'e, 'a> {
    ghost use Rattle.std.specs.Prelude.{◌≡◌, List, [], map, filter};
    ghost use Rattle.std.specs.Option.{option_map_or};
    ghost use Rattle.std.specs.HashMap.{get};
    ghost use Rattle.psl_rules.specs.Relations.{End};
    ghost use Rattle.psl_relations.specs.Back.{Side, same_side, is_on};
    ghost use Rattle.psl_text.specs.contracts.tree.Term as term;
    ghost use Rattle.std.specs.Coded.{codes};

    ghost Value = { List End };

    ghost coded = { Prim.hlevel (codes, term.the_row.coded) };

    ghost view = { λ s. s.ends.now };

    ghost invariant = { λ s. (s.none.items ≡ []) × ((side : Side) → map (λ end. end.now) (option_map_or (λ group. group.items) (get same_side s.groups side) []) ≡ filter (is_on side) s.ends.now) };
}

fn side_of<'a>(end: &End<'a>) -> Side<'a>
    ensures model { result.0.now ≡ end.now.model.name.text }
    ensures target { result.1.now ≡ end.now.field.type.text }
    ensures name { option_copied result.2 ≡ relation_name end.now }
{
    (
        end.model().name.text.as_str(),
        end.field().kind().text.as_str(),
        end.relation_name(),
    )
}

/// The ends, each with its side.
#[tactic(auto, using(crate::proofs::Gathered::on_side, crate::proofs::Gathered::turn))]
fn with_sides<'e, 'a>(
    alloc: Global,
    ends: &'e [End<'a>],
) -> Result<Vec<(Side<'a>, &'e End<'a>)>, Memory>
    ensures { IfOk result (λ sided. (side : spec.Side) → map (λ one. one.1.now) (filter (λ one. spec.same_side one.0 side) sided.items) ≡ filter (spec.is_on side) ends.now) }
{
    let mut sided = Vec::new(alloc);
    for end in ends {
        let side = side_of(end);
        sided.push((side, end))?;
    }
    Ok(sided)
}

impl<'e, 'a> Sides<'e, 'a> {
    pub fn of(alloc: Global, ends: &'e [End<'a>]) -> Result<Sides<'e, 'a>, Memory>
        ensures { IfOk result (λ sides. sides ≡ ends.now) }
    {
        let sided = with_sides(alloc, ends)?;
        let groups = grouped(alloc, sided.as_slice())?;
        let none = Vec::new(alloc);
        Ok(Sides { ends, groups, none })
    }

    /// Those that lead back to the model of an end by the same relation.
    #[tactic(auto, using(crate::proofs::Gathered::leading))]
    pub fn leading_back(&self, end: &End<'a>) -> &[&'e End<'a>]
        ensures { map (λ other. other.now) result.now ≡ filter (spec.leads_back end.now) self.now }
    {
        let back = (
            end.field().kind().text.as_str(),
            end.model().name.text.as_str(),
            end.relation_name(),
        );
        self.groups.get(&back).unwrap_or(&self.none).as_slice()
    }
}
