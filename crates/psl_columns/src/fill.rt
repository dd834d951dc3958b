//! What a column has where no value is given.
ghost use Rattle.std.specs.Prelude.{◌≡◌, IfOk, option_map, option_and_then, option_copied, bytes_eq, codes, unwrap_or};
ghost use Rattle.psl_rules.specs.Parts.{text_in, name_in, attribute_named};
ghost use Rattle.psl_rules.specs.Defaults.{default_in, number_in};
ghost use Rattle.qe_scalars.specs.Numbers.{is_small, is_big, number_within};
ghost use Rattle.qe_scalars.specs.Moments.{moment_of};
ghost use Rattle.qe_scalars.specs.Bytes.{bytes_of};
ghost use Rattle.qe_base.specs.declared.value.Value.TheVariants as value;
ghost use Rattle.qe_base.specs.declared.schema.Fill.TheVariants as fill;
ghost use Rattle.psl_sound.specs.SchemaOf as spec;

use crate::enums::Enums;
use crate::names::{member_names, number_among};
use psl_keys::number_in;
use psl_parts::{given, is_called, name_in, text_in};
use psl_text::{Attribute, Term};
use qe_base::{Fill, Shared, Value};
use qe_scalars::{big_in, bytes_in, moment_in, small_in};
use qe_text::Memory;
use std::alloc::Global;

/// The number of a member of an enum, from 0, and 0 where there is none. `Memory` where 16 bits don't
/// hold it.
fn member_number(alloc: Global, enums: &Enums, enumeration: &str, name: &str) -> Result<u16, Memory>
    ensures { IfOk result (λ number. number ≡ spec.member_number enums.now enumeration.now name.now) }
{
    match enums.named(enumeration) {
        Some(block) => number_among(member_names(alloc, block)?.as_slice(), name),
        None => Ok(0),
    }
}

fn text_fill(alloc: Global, default: &Term) -> Result<Fill, Memory>
    ensures { IfOk result (λ filled. filled ≡ spec.literal_or fill.Uuid (option_map value.Text (text_in default.now))) }
{
    match text_in(default) {
        Some(text) => Ok(Fill::Literal(Value::text(alloc, text)?)),
        None => Ok(Fill::Uuid),
    }
}

fn bool_fill(default: &Term) -> Fill
    ensures { result ≡ spec.literal_or fill.Absent (option_map (λ name. value.Bool (bytes_eq name (codes "true"))) (name_in default.now)) }
{
    match name_in(default) {
        Some(name) => Fill::Literal(Value::Bool(name == "true")),
        None => Fill::Absent,
    }
}

fn small_default(default: &Term) -> Option<i64>
    ensures { result ≡ option_and_then (number_within is_small) (number_in default.now) }
{
    match number_in(default) {
        Some(text) => small_in(text),
        None => None,
    }
}

fn big_default(default: &Term) -> Option<i64>
    ensures { result ≡ option_and_then (number_within is_big) (number_in default.now) }
{
    match number_in(default) {
        Some(text) => big_in(text),
        None => None,
    }
}

/// This number, or the counter's next.
fn number_fill(number: Option<i64>) -> Fill
    ensures { result ≡ spec.literal_or fill.Counter (option_map value.Int number) }
{
    match number {
        Some(number) => Fill::Literal(Value::Int(number)),
        None => Fill::Counter,
    }
}

fn moment_default(default: &Term) -> Option<i64>
    ensures { result ≡ option_and_then moment_of (text_in default.now) }
{
    match text_in(default) {
        Some(text) => moment_in(text),
        None => None,
    }
}

fn moment_fill(default: &Term) -> Fill
    ensures { result ≡ spec.literal_or fill.Now (option_map value.Moment (option_and_then moment_of (text_in default.now))) }
{
    match moment_default(default) {
        Some(moment) => Fill::Literal(Value::Moment(moment)),
        None => Fill::Now,
    }
}

fn bytes_fill(alloc: Global, default: &Term) -> Result<Fill, Memory>
    ensures { IfOk result (λ filled. filled ≡ spec.literal_or fill.Absent (option_map value.Blob (option_and_then bytes_of (text_in default.now)))) }
{
    match text_in(default) {
        Some(text) => match bytes_in(alloc, text)? {
            Some(bytes) => Ok(Fill::Literal(Value::Blob(Shared::new(alloc, bytes)?))),
            None => Ok(Fill::Absent),
        },
        None => Ok(Fill::Absent),
    }
}

fn member_fill(
    alloc: Global,
    enums: &Enums,
    enumeration: &str,
    default: &Term,
) -> Result<Fill, Memory>
    ensures { IfOk result (λ filled. filled ≡ spec.literal_or fill.Absent (option_map (λ name. value.Member (spec.member_number enums.now enumeration.now name)) (name_in default.now))) }
{
    match name_in(default) {
        Some(name) => {
            let number = member_number(alloc, enums, enumeration, name)?;
            Ok(Fill::Literal(Value::Member(number)))
        }
        None => Ok(Fill::Absent),
    }
}

/// What a default of a field of this type fills in.
fn fill_in(alloc: Global, enums: &Enums, kind: &str, default: &Term) -> Result<Fill, Memory>
    ensures { IfOk result (λ filled. filled ≡ spec.fill_in enums.now kind.now default.now) }
{
    if kind == "String" {
        text_fill(alloc, default)
    } else if kind == "Boolean" {
        Ok(bool_fill(default))
    } else if kind == "Int" {
        Ok(number_fill(small_default(default)))
    } else if kind == "BigInt" {
        Ok(number_fill(big_default(default)))
    } else if kind == "DateTime" {
        Ok(moment_fill(default))
    } else if kind == "Bytes" {
        bytes_fill(alloc, default)
    } else {
        member_fill(alloc, enums, kind, default)
    }
}

/// What `@default` gives.
fn default_in(attributes: &[Attribute]) -> Option<&Term>
    ensures { option_copied result ≡ option_and_then default_in (attribute_named (codes "default") attributes.now) }
{
    for attribute in attributes {
        if is_called(attribute, "default") {
            return given(attribute, "", true);
        }
    }
    None
}

/// What `@default` among the attributes of a field of this type fills in, and nothing where there is
/// none.
pub fn fill(
    alloc: Global,
    enums: &Enums,
    kind: &str,
    attributes: &[Attribute],
) -> Result<Fill, Memory>
    ensures { IfOk result (λ filled. filled ≡ unwrap_or (option_map (spec.fill_in enums.now kind.now) (option_and_then default_in (attribute_named (codes "default") attributes.now))) fill.Absent) }
{
    match default_in(attributes) {
        Some(default) => fill_in(alloc, enums, kind, default),
        None => Ok(Fill::Absent),
    }
}
