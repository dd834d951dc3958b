//! Fields that foreign keys refer to, to look up.
ghost use Rattle.std.specs.Prelude.{◌≡◌, ◌&&◌, ◌||◌, IfOk, OnOk, map, filter, bytes_eq};
ghost use Rattle.std.specs.List.{list_any};
ghost use Rattle.qe_text.specs.Lists.{is_among};
ghost use Rattle.psl_rules.specs.Relations.{has_fields};
ghost use Rattle.psl_relations.specs.Referred as spec;

use crate::relations::End;
use indexmap::IndexSet;
use qe_text::Memory;
use std::alloc::Global;
use std::marker::Model;

/// The name of a model, and that of a field.
type Named<'a> = (&'a str, &'a str);

/// Ends of relations, with what their foreign keys refer to.
#[derive(Drop)]
pub struct Referred<'e, 'a> {
    ends: &'e [End<'a>],
    fields: IndexSet<Named<'a>>,
}

impl<'e, 'a> Model for Referred<'e, 'a> {
    ghost use Rattle.std.specs.Prelude.{List, filter};
    ghost use Rattle.std.specs.List.{list_any};
    ghost use Rattle.psl_rules.specs.Relations.{End, has_fields};
    ghost use Rattle.psl_relations.specs.Referred.{HoldsFields, refers_to};
    ghost use Rattle.psl_text.specs.contracts.tree.Term as term;
    ghost use Rattle.std.specs.Coded.{codes};

    ghost Value = { List End };

    ghost coded = { Prim.hlevel (codes, term.the_row.coded) };

    ghost view = { λ r. r.ends.now };

    ghost invariant = { λ r. HoldsFields r.fields.keys (λ model name. list_any (refers_to model name) (filter has_fields r.ends.now)) };
}

/// Adds fields of a model.
fn add_fields<'a>(
    fields: &mut IndexSet<Named<'a>>,
    model: &'a str,
    names: &[&'a str],
) -> Result<(), Memory>
    ensures { OnOk result (spec.HoldsFields fields.new.keys (λ of name. spec.has_field fields.old.keys of name || (bytes_eq model.now of && is_among name (map (λ name. name.now) names.now)))) }
{
    for name in names {
        fields.insert((model, *name))?;
    }
    Ok(())
}

/// Adds the fields that an end refers to.
fn add_referred<'a>(
    fields: &mut IndexSet<Named<'a>>,
    alloc: Global,
    end: &End<'a>,
) -> Result<(), Memory>
    ensures { OnOk result (spec.HoldsFields fields.new.keys (λ model name. spec.has_field fields.old.keys model name || spec.refers_to model name end.now)) }
{
    let names = end.other_names(alloc)?;
    add_fields(fields, end.field().kind().text.as_str(), names.as_slice())
}

/// The fields that these ends refer to.
fn referred_fields<'a>(alloc: Global, ends: &[End<'a>]) -> Result<IndexSet<Named<'a>>, Memory>
    ensures { IfOk result (λ fields. spec.HoldsFields fields.keys (λ model name. list_any (spec.refers_to model name) (filter has_fields ends.now))) }
{
    let mut fields = IndexSet::new(alloc);
    for end in ends {
        if end.has_fields() {
            add_referred(&mut fields, alloc, end)?;
        }
    }
    Ok(fields)
}

impl<'e, 'a> Referred<'e, 'a> {
    pub fn by(alloc: Global, ends: &'e [End<'a>]) -> Result<Referred<'e, 'a>, Memory>
        ensures { IfOk result (λ referred. referred ≡ ends.now) }
    {
        let fields = referred_fields(alloc, ends)?;
        Ok(Referred { ends, fields })
    }

    /// Whether a foreign key refers to this field.
    fn has(&self, model: &'a str, name: &'a str) -> bool
        ensures { result ≡ list_any (spec.refers_to model.now name.now) (filter has_fields self.now) }
    {
        self.fields.contains(&(model, name))
    }

    /// Whether foreign keys refer to one of these fields of a model.
    pub fn has_one_of(&self, model: &'a str, names: &[&'a str]) -> bool
        ensures { result ≡ list_any (λ name. list_any (spec.refers_to model.now name) (filter has_fields self.now)) (map (λ name. name.now) names.now) }
    {
        for name in names {
            if self.has(model, name) {
                return true;
            }
        }
        false
    }
}
