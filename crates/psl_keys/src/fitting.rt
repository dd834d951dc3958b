//! Which defaults the fields of each type may have.
ghost use Rattle.std.specs.Prelude.{◌≡◌, ◌||◌, IfOk, is_some, codes, [], ◌∷◌, option_copied};
ghost use Rattle.qe_scalars.specs.Numbers.{is_small, is_big, number_within};
ghost use Rattle.qe_scalars.specs.Moments.{moment_of};
ghost use Rattle.qe_scalars.specs.Bytes.{bytes_of};
ghost use Rattle.qe_text.specs.Lists.{is_among};
ghost use Rattle.psl_rules.specs.Parts as parts;
ghost use Rattle.psl_rules.specs.Defaults as spec;

use crate::members::Members;
use psl_parts::{calls, is_among, name_in, text_in};
use psl_text::Term;
use qe_scalars::{big_in, bytes_in, moment_in, small_in};
use qe_text::{Memory, Text};
use std::alloc::Global;

/// A number, as it is written.
pub fn number_in(value: &Term) -> Option<&str>
    ensures { option_copied result ≡ spec.number_in value.now }
{
    match value {
        Term::Text(_, _) => None,
        Term::Number(text, _) => Some(text.as_str()),
        Term::Name(_) => None,
        Term::Call(_, _) => None,
        Term::List(_, _) => None,
    }
}

fn is_for_string(value: &Term) -> bool
    ensures { result ≡ (is_some (parts.text_in value.now) || parts.calls (codes "uuid") value.now) }
{
    text_in(value).is_some() || calls(value, "uuid")
}

fn is_for_boolean(value: &Term) -> bool
    ensures { result ≡ spec.passes (λ name. is_among name (codes "true" ∷ codes "false" ∷ [])) (parts.name_in value.now) }
{
    match name_in(value) {
        Some(name) => is_among(name, &["true", "false"]),
        None => false,
    }
}

fn is_small(value: &Term) -> bool
    ensures { result ≡ spec.passes (λ text. is_some (number_within is_small text)) (spec.number_in value.now) }
{
    match number_in(value) {
        Some(text) => small_in(text).is_some(),
        None => false,
    }
}

fn is_big(value: &Term) -> bool
    ensures { result ≡ spec.passes (λ text. is_some (number_within is_big text)) (spec.number_in value.now) }
{
    match number_in(value) {
        Some(text) => big_in(text).is_some(),
        None => false,
    }
}

fn is_moment(value: &Term) -> bool
    ensures { result ≡ spec.passes (λ text. is_some (moment_of text)) (parts.text_in value.now) }
{
    match text_in(value) {
        Some(text) => moment_in(text).is_some(),
        None => false,
    }
}

fn is_bytes(alloc: Global, value: &Term) -> Result<bool, Memory>
    ensures { IfOk result (λ holds. holds ≡ spec.passes (λ text. is_some (bytes_of text)) (parts.text_in value.now)) }
{
    match text_in(value) {
        Some(text) => Ok(bytes_in(alloc, text)?.is_some()),
        None => Ok(false),
    }
}

fn is_for_enum(members: &Members, kind: &Text, value: &Term) -> bool
    ensures { result ≡ spec.passes (spec.is_member_of members.now kind.now) (parts.name_in value.now) }
{
    match name_in(value) {
        Some(name) => members.has(kind.as_str(), name),
        None => false,
    }
}

/// Whether a field of this type may have this default.
pub fn fits_type(
    alloc: Global,
    members: &Members,
    kind: &Text,
    value: &Term,
) -> Result<bool, Memory>
    ensures { IfOk result (λ holds. holds ≡ spec.fits_type members.now kind.now value.now) }
{
    if kind.is_same("String") {
        Ok(is_for_string(value))
    } else if kind.is_same("Boolean") {
        Ok(is_for_boolean(value))
    } else if kind.is_same("Int") {
        Ok(is_small(value) || calls(value, "autoincrement"))
    } else if kind.is_same("BigInt") {
        Ok(is_big(value) || calls(value, "autoincrement"))
    } else if kind.is_same("DateTime") {
        Ok(is_moment(value) || calls(value, "now"))
    } else if kind.is_same("Bytes") {
        is_bytes(alloc, value)
    } else {
        Ok(is_for_enum(members, kind, value))
    }
}
