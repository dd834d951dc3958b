//! What attributes are called, and what their arguments give.
ghost use Rattle.std.specs.Prelude.{◌≡◌, IfOk, OnOk, map, ◌++◌, option_copied};
ghost use Rattle.qe_text.specs.Lists.{is_among};
ghost use Rattle.psl_rules.specs.Parts as spec;

use psl_text::{Argument, Attribute, Name, Term};
use qe_text::Memory;
use std::alloc::Global;

/// Whether an attribute has this name.
pub fn is_called(attribute: &Attribute, name: &str) -> bool
    ensures { result ≡ spec.is_called name.now attribute.now }
{
    attribute.name.text.is_same(name)
}

/// Whether one of the attributes has this name.
pub fn has_attribute(attributes: &[Attribute], name: &str) -> bool
    ensures { result ≡ spec.has_attribute name.now attributes.now }
{
    attributes
        .iter()
        .any(|attribute| is_called(attribute, name))
}

fn is_given_as(name: &Option<Name>, parameter: &str, alone: bool) -> bool
    ensures { result ≡ spec.is_given_as parameter.now alone name.now }
{
    match name {
        Some(name) => name.text.is_same(parameter),
        None => alone,
    }
}

fn gives(argument: &Argument, parameter: &str, alone: bool) -> bool
    ensures { result ≡ spec.gives parameter.now alone argument.now }
{
    is_given_as(&argument.name, parameter, alone)
}

/// What an attribute gives for a parameter, by its name, or without it where it may stand alone.
pub fn given<'a>(attribute: &'a Attribute, parameter: &str, alone: bool) -> Option<&'a Term>
    ensures { option_copied result ≡ spec.given parameter.now alone attribute.now }
{
    for argument in attribute.arguments.as_slice() {
        if gives(argument, parameter, alone) {
            return Some(&argument.value);
        }
    }
    None
}

/// What a string stands for.
pub fn text_in(value: &Term) -> Option<&str>
    ensures { option_copied result ≡ spec.text_in value.now }
{
    match value {
        Term::Text(text, _) => Some(text.as_str()),
        Term::Number(_, _) => None,
        Term::Name(_) => None,
        Term::Call(_, _) => None,
        Term::List(_, _) => None,
    }
}

/// A plain name.
pub fn name_in(value: &Term) -> Option<&str>
    ensures { option_copied result ≡ spec.name_in value.now }
{
    match value {
        Term::Text(_, _) => None,
        Term::Number(_, _) => None,
        Term::Name(name) => Some(name.text.as_str()),
        Term::Call(_, _) => None,
        Term::List(_, _) => None,
    }
}

/// The items of a list, and none where it is no list.
fn items_of(value: &Term) -> &[Term]
    ensures { result.now ≡ spec.items_of value.now }
{
    match value {
        Term::Text(_, _) => &[],
        Term::Number(_, _) => &[],
        Term::Name(_) => &[],
        Term::Call(_, _) => &[],
        Term::List(items, _) => items.as_slice(),
    }
}

/// Appends the plain names in a list.
fn push_names<'a>(names: &mut Vec<&'a str>, value: &'a Term) -> Result<(), Memory>
    ensures { OnOk result (map (λ name. name.now) names.new.items ≡ map (λ name. name.now) names.old.items ++ spec.names_in value.now) }
{
    for item in items_of(value) {
        if let Some(name) = name_in(item) {
            names.push(name)?;
        }
    }
    Ok(())
}

/// Appends the names in the list that an attribute gives for a parameter.
pub fn push_given_names<'a>(
    names: &mut Vec<&'a str>,
    attribute: &'a Attribute,
    parameter: &str,
    alone: bool,
) -> Result<(), Memory>
    ensures { OnOk result (map (λ name. name.now) names.new.items ≡ map (λ name. name.now) names.old.items ++ spec.given_names parameter.now alone attribute.now) }
{
    match given(attribute, parameter, alone) {
        Some(value) => push_names(names, value),
        None => Ok(()),
    }
}

/// The names in the list that an attribute gives for a parameter.
pub fn given_names<'a>(
    alloc: Global,
    attribute: &'a Attribute,
    parameter: &str,
    alone: bool,
) -> Result<Vec<&'a str>, Memory>
    ensures { IfOk result (λ names. map (λ name. name.now) names.items ≡ spec.given_names parameter.now alone attribute.now) }
{
    let mut names = Vec::new(alloc);
    push_given_names(&mut names, attribute, parameter, alone)?;
    Ok(names)
}

/// The string that an attribute gives for a parameter.
pub fn given_text<'a>(attribute: &'a Attribute, parameter: &str, alone: bool) -> Option<&'a str>
    ensures { option_copied result ≡ spec.given_text parameter.now alone attribute.now }
{
    match given(attribute, parameter, alone) {
        Some(value) => text_in(value),
        None => None,
    }
}

/// Whether a name is one of these.
pub fn is_among(name: &str, names: &[&str]) -> bool
    ensures { result ≡ is_among name.now (map (λ name. name.now) names.now) }
{
    for other in names {
        if name == *other {
            return true;
        }
    }
    false
}

/// Whether a term is a call of this name that takes nothing.
pub fn calls(value: &Term, name: &str) -> bool
    ensures { result ≡ spec.calls name.now value.now }
{
    match value {
        Term::Text(_, _) => false,
        Term::Number(_, _) => false,
        Term::Name(_) => false,
        Term::Call(called, arguments) => match arguments.as_slice() {
            [] => called.text.is_same(name),
            [_, ..] => false,
        },
        Term::List(_, _) => false,
    }
}
