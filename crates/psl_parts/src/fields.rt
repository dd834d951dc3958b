//! Fields of models.
ghost use Rattle.std.specs.Prelude.{◌≡◌, IfOk, map, option_copied, bytes_eq};
ghost use Rattle.std.specs.List.{list_all, zip};
ghost use Rattle.psl_rules.specs.Parts.{attribute_named};
ghost use Rattle.psl_rules.specs.Names.{is_many, is_optional};
ghost use Rattle.psl_rules.specs.Foreign as spec;

use crate::arguments::is_called;
use psl_text::{Attribute, Block, Entry, Mark, Name};
use qe_text::Memory;
use std::alloc::Global;
use std::marker::Model;

/// A field of a model.
#[derive(Drop)]
pub struct Field<'a> {
    pub name: &'a Name,
    pub kind: &'a Name,
    pub mark: Mark,
    pub attributes: &'a [Attribute],
}

impl<'a> Model for Field<'a> {
    ghost use Rattle.psl_rules.specs.Parts.{ModelField};
    ghost use Rattle.psl_text.specs.contracts.tree.Term as term;
    ghost use Rattle.std.specs.Coded.{codes};

    ghost Value = { ModelField };

    ghost coded = { Prim.hlevel (codes, term.the_row.coded) };

    ghost view = { λ f. record { name = f.name.now; type = f.kind.now; mark = f.mark; attributes = f.attributes.now } };
}

/// The first attribute of this name.
fn attribute_named<'a>(attributes: &'a [Attribute], name: &str) -> Option<&'a Attribute>
    ensures { option_copied result ≡ attribute_named name.now attributes.now }
{
    for attribute in attributes {
        if is_called(attribute, name) {
            return Some(attribute);
        }
    }
    None
}

impl<'a> Field<'a> {
    pub fn name(&self) -> &'a Name
        ensures { result.now ≡ self.now.name }
    {
        self.name
    }

    pub fn kind(&self) -> &'a Name
        ensures { result.now ≡ self.now.type }
    {
        self.kind
    }

    pub fn mark(&self) -> Mark
        ensures { result ≡ self.now.mark }
    {
        self.mark
    }

    /// The first attribute of this name.
    pub fn attribute(&self, name: &str) -> Option<&'a Attribute>
        ensures { option_copied result ≡ attribute_named name.now self.now.attributes }
    {
        attribute_named(self.attributes, name)
    }

    pub fn is_list(&self) -> bool
        ensures { result ≡ is_many self.now.mark }
    {
        match self.mark() {
            Mark::Many => true,
            Mark::One | Mark::Optional => false,
        }
    }

    pub fn is_optional(&self) -> bool
        ensures { result ≡ is_optional self.now.mark }
    {
        match self.mark() {
            Mark::Optional => true,
            Mark::One | Mark::Many => false,
        }
    }

    fn has_type_of(&self, other: &Field) -> bool
        ensures { result ≡ bytes_eq self.now.type.text other.now.type.text }
    {
        self.kind().text.is_same(other.kind().text.as_str())
    }
}

/// The first field of this name.
fn field_named<'a>(model: &'a Block, name: &str) -> Option<Field<'a>>
    ensures { result ≡ spec.field_named model.now name.now }
{
    for entry in model.entries.as_slice() {
        if let Entry::Field {
            name: called,
            kind,
            mark,
            attributes,
            ..
        } = entry
        {
            if called.text.is_same(name) {
                return Some(Field {
                    name: called,
                    kind,
                    mark: *mark,
                    attributes: attributes.as_slice(),
                });
            }
        }
    }
    None
}

/// The fields of these names, in their order.
pub fn fields_named<'a>(
    alloc: Global,
    model: &'a Block,
    names: &[&str],
) -> Result<Vec<Field<'a>>, Memory>
    ensures { IfOk result (λ fields. fields.items ≡ spec.fields_named model.now (map (λ name. name.now) names.now)) }
{
    let mut fields = Vec::new(alloc);
    for name in names {
        if let Some(field) = field_named(model, name) {
            fields.push(field)?;
        }
    }
    Ok(fields)
}

pub fn are_required(fields: &[Field]) -> bool
    ensures { result ≡ list_all spec.is_required fields.now }
{
    fields.iter().all(|field| !field.is_optional())
}

pub fn are_optional(fields: &[Field]) -> bool
    ensures { result ≡ list_all (λ field. is_optional field.mark) fields.now }
{
    fields.iter().all(|field| field.is_optional())
}

/// Whether the fields have the types of the others, one by one, as far as both go.
pub fn have_same_types(fields: &[Field], others: &[Field]) -> bool
    ensures { result ≡ list_all spec.have_same_type (zip fields.now others.now) }
{
    for number in 0..fields.len().min(others.len()) {
        if !fields[number].has_type_of(&others[number]) {
            return false;
        }
    }
    true
}
