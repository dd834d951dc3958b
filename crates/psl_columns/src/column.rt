//! The columns of models.
ghost use Rattle.std.specs.Prelude.{◌≡◌, IfOk, true, unwrap_or, codes};
ghost use Rattle.psl_rules.specs.Parts.{given_text};
ghost use Rattle.psl_rules.specs.Stored.{mapped};
ghost use Rattle.psl_sound.specs.SchemaOf as spec;

use crate::enums::Enums;
use crate::fill::fill;
use crate::names::is_column;
use psl_parts::{Field, given_text, has_attribute, is_called};
use psl_text::{Attribute, Block, Entry};
use qe_base::{Column, EnumId, Kind};
use qe_text::{Items, Memory, Text};
use std::alloc::Global;

/// What kind of values a field of this type has. A tree of more than 65,536 enums has no numbers for
/// those beyond; for them the answer is `Memory`.
pub fn kind(enums: &Enums, type_name: &str) -> Result<Kind, Memory>
    ensures { IfOk result (λ kind. kind ≡ spec.kind_of enums.now type_name.now) }
{
    if type_name == "String" {
        Ok(Kind::Text)
    } else if type_name == "Boolean" {
        Ok(Kind::Bool)
    } else if type_name == "Int" {
        Ok(Kind::Int)
    } else if type_name == "BigInt" {
        Ok(Kind::Big)
    } else if type_name == "DateTime" {
        Ok(Kind::Moment)
    } else if type_name == "Bytes" {
        Ok(Kind::Blob)
    } else {
        Ok(Kind::Member(EnumId(enums.number(type_name)?)))
    }
}

fn column(alloc: Global, enums: &Enums, field: &Field) -> Result<Column, Memory>
    ensures { IfOk result (λ column. column ≡ spec.column_of enums.now field.now) }
{
    let name = &field.name().text;
    let type_name = field.kind().text.as_str();
    Ok(Column {
        name: name.copy(alloc)?,
        stored: Text::from_str(alloc, mapped_field(name, field.attributes))?,
        kind: kind(enums, type_name)?,
        optional: field.is_optional(),
        fill: fill(alloc, enums, type_name, field.attributes)?,
        updated: has_attribute(field.attributes, "updatedAt"),
    })
}

/// The columns of a model, in text order.
pub fn columns(alloc: Global, enums: &Enums, model: &Block) -> Result<Items<Column>, Memory>
    ensures { IfOk result (λ columns. columns ≡ spec.columns_of enums.now model.now) }
{
    let mut columns = Items::new(alloc);
    for entry in model.entries.as_slice() {
        if let Entry::Field {
            name,
            kind,
            mark,
            attributes,
            ..
        } = entry
        {
            if is_column(enums.types(), kind) {
                let field = Field {
                    name,
                    kind,
                    mark: *mark,
                    attributes: attributes.as_slice(),
                };
                columns.push(column(alloc, enums, &field)?)?;
            }
        }
    }
    Ok(columns)
}

/// The name that this `@map` gives, or else the own one.
fn given_name<'a>(own: &'a Text, map: &'a Attribute) -> &'a str
    ensures { result.now ≡ unwrap_or (given_text (codes "name") true map.now) own.now }
{
    match given_text(map, "name", true) {
        Some(name) => name,
        None => own.as_str(),
    }
}

/// The name that `@map` gives a field, or else its own one.
fn mapped_field<'a>(own: &'a Text, attributes: &'a [Attribute]) -> &'a str
    ensures { result.now ≡ mapped own.now attributes.now }
{
    for attribute in attributes {
        if is_called(attribute, "map") {
            return given_name(own, attribute);
        }
    }
    own.as_str()
}
