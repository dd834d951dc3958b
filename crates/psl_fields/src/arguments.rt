//! Which arguments an attribute takes.
ghost use Rattle.std.specs.Prelude.{◌≡◌, [], ◌∷◌, ◌&&◌, ◌||◌, map, length, filter, count_by, bytes_eq, codes};
ghost use Rattle.std.specs.List.{list_any, list_all};
ghost use Rattle.psl_text.specs.declared.tree.Argument.{out-Argument};
ghost use Rattle.psl_rules.specs.Parts.{gives};
ghost use Rattle.psl_rules.specs.Arguments as spec;
ghost use Rattle.psl_fields.specs.Parameters.{accepts, parameter_of};

use crate::terms::{is_list_of_names, is_name_text, is_plain_name, is_text};
use psl_text::{Argument, Attribute, Term};

/// What an argument has to be.
#[derive(Clone, Copy)]
enum Form {
    Any,
    Text,
    NameText,
    Name,
    Names,
}

/// What an attribute takes: its argument's name, whether that may be left out, whether it must be
/// given, and its form.
#[derive(Clone, Copy)]
struct Parameter {
    name: &'static str,
    is_alone: bool,
    is_needed: bool,
    form: Form,
}

impl Parameter {
    /// It may be given, by its name.
    fn may(name: &'static str, form: Form) -> Parameter
        ensures { parameter_of result ≡ spec.may name.now (accepts form) }
    {
        Parameter {
            name,
            is_alone: false,
            is_needed: false,
            form,
        }
    }

    /// It may be given, also without its name.
    fn may_alone(name: &'static str, form: Form) -> Parameter
        ensures { parameter_of result ≡ spec.may_alone name.now (accepts form) }
    {
        Parameter {
            name,
            is_alone: true,
            is_needed: false,
            form,
        }
    }

    /// It must be given, with or without its name.
    fn must_alone(name: &'static str, form: Form) -> Parameter
        ensures { parameter_of result ≡ spec.must_alone name.now (accepts form) }
    {
        Parameter {
            name,
            is_alone: true,
            is_needed: true,
            form,
        }
    }
}

fn accepts(form: Form, term: &Term) -> bool
    ensures { result ≡ accepts form term.now }
{
    match form {
        Form::Any => true,
        Form::Text => is_text(term),
        Form::NameText => is_name_text(term),
        Form::Name => is_plain_name(term),
        Form::Names => is_list_of_names(term),
    }
}

fn gives_to(argument: &Argument, parameter: &Parameter) -> bool
    ensures { result ≡ spec.gives_to argument.now (parameter_of parameter.now) }
{
    match &argument.name {
        Some(name) => name.text.is_same(parameter.name),
        None => parameter.is_alone,
    }
}

fn is_for_one_of(argument: &Argument, parameters: &[Parameter]) -> bool
    ensures { result ≡ list_any (λ parameter. spec.gives_to argument.now (parameter_of parameter)) parameters.now }
{
    parameters
        .iter()
        .any(|parameter| gives_to(argument, parameter))
}

#[tactic(auto, using(crate::proofs::Fitting::counted))]
fn count_for(arguments: &[Argument], parameter: &Parameter) -> usize
    ensures { result ≡ length (spec.arguments_for (parameter_of parameter.now) arguments.now) }
{
    arguments
        .iter()
        .filter(|argument| gives_to(argument, parameter))
        .count()
}

fn are_accepted(arguments: &[Argument], parameter: &Parameter) -> bool
    ensures { result ≡ list_all (λ argument. accepts parameter.now.form (out-Argument argument).value) (spec.arguments_for (parameter_of parameter.now) arguments.now) }
{
    arguments
        .iter()
        .filter(|argument| gives_to(argument, parameter))
        .all(|argument| accepts(parameter.form, &argument.value))
}

/// Whether a parameter is given at most once, and once where it must be, and in its form.
fn is_taken(arguments: &[Argument], parameter: &Parameter) -> bool
    ensures { result ≡ spec.is_taken arguments.now (parameter_of parameter.now) }
{
    let count = count_for(arguments, parameter);
    count <= 1 && (!parameter.is_needed || 1 <= count) && are_accepted(arguments, parameter)
}

fn are_for(arguments: &[Argument], parameters: &[Parameter]) -> bool
    ensures { result ≡ list_all (λ argument. list_any (λ parameter. spec.gives_to argument (parameter_of parameter)) parameters.now) arguments.now }
{
    arguments
        .iter()
        .all(|argument| is_for_one_of(argument, parameters))
}

fn are_taken(arguments: &[Argument], parameters: &[Parameter]) -> bool
    ensures { result ≡ list_all (λ parameter. spec.is_taken arguments.now (parameter_of parameter)) parameters.now }
{
    parameters
        .iter()
        .all(|parameter| is_taken(arguments, parameter))
}

/// Whether each argument is for one of the parameters, and each parameter rightly given.
#[tactic(auto, using(crate::proofs::Fitting::fit_rows))]
fn fit(parameters: &[Parameter], arguments: &[Argument]) -> bool
    ensures { result ≡ spec.arguments_fit (map parameter_of parameters.now) arguments.now }
{
    are_for(arguments, parameters) && are_taken(arguments, parameters)
}

/// Whether the attribute of a field has the arguments that it takes.
pub fn fit_on_field(attribute: &Attribute) -> bool
    ensures { result ≡ spec.arguments_fit (spec.field_parameters attribute.now.name.text) attribute.now.arguments }
{
    let arguments = attribute.arguments.as_slice();
    match attribute.name.text.as_str() {
        "id" | "unique" => fit(&[Parameter::may("map", Form::Text)], arguments),
        "default" => fit(&[Parameter::must_alone("", Form::Any)], arguments),
        "map" => fit(&[Parameter::must_alone("name", Form::Text)], arguments),
        "relation" => fit(
            &[
                Parameter::may_alone("name", Form::Text),
                Parameter::may("fields", Form::Names),
                Parameter::may("references", Form::Names),
                Parameter::may("onDelete", Form::Name),
                Parameter::may("onUpdate", Form::Name),
                Parameter::may("map", Form::Text),
            ],
            arguments,
        ),
        _ => fit(&[], arguments),
    }
}

/// Whether the attribute of a model has the arguments that it takes.
pub fn fit_on_model(attribute: &Attribute) -> bool
    ensures { result ≡ spec.arguments_fit (spec.model_parameters attribute.now.name.text) attribute.now.arguments }
{
    let arguments = attribute.arguments.as_slice();
    let fields = Parameter::must_alone("fields", Form::Names);
    let stored = Parameter::may("map", Form::Text);
    match attribute.name.text.as_str() {
        "id" | "unique" => fit(
            &[fields, Parameter::may("name", Form::NameText), stored],
            arguments,
        ),
        "index" => fit(&[fields, stored], arguments),
        "map" => fit(&[Parameter::must_alone("name", Form::Text)], arguments),
        _ => fit(&[], arguments),
    }
}
