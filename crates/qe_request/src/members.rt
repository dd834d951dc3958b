//! The members of JSON objects.
ghost use Rattle.std.specs.Prelude.{◌≡◌, is_some, map, option_map};
ghost use Rattle.std.specs.List.{list_all};
ghost use Rattle.serde_json.specs.Find.{get};
ghost use Rattle.serde_json.specs.View.{view};
ghost use Rattle.qe_forms.specs.Request.{is_object_of, alone as only, text_at as named_text};
ghost use Rattle.qe_request.specs.Counts.{has_count};

use qe_base::Column;
use serde_json::Value as Json;

/// Whether this is an object with so many members.
pub fn counts(json: &Json, count: usize) -> bool
    ensures { result ≡ has_count count (view json.now) }
{
    match json.as_object() {
        Some(members) => members.len() == count,
        None => false,
    }
}

/// Whether there is a member of this name.
pub fn has(json: &Json, name: &str) -> bool
    ensures { result ≡ is_some (get name.now (view json.now)) }
{
    json.get(name).is_some()
}

fn has_each(json: &Json, columns: &[Column]) -> bool
    ensures { result ≡ list_all (λ column. is_some (get column.name (view json.now))) columns.now }
{
    columns.iter().all(|column| has(json, column.name.as_str()))
}

/// Whether this is an object whose members have just the columns' names.
#[tactic(auto, using(crate::proofs::Objects::columns_named))]
pub fn names_columns(json: &Json, columns: &[Column]) -> bool
    ensures { result ≡ is_object_of (map (λ column. column.name) columns.now) (view json.now) }
{
    counts(json, columns.len()) && has_each(json, columns)
}

/// The value of the only member, where it has this name.
#[tactic(auto, using(crate::proofs::Objects::alone_is))]
pub fn alone<'json>(json: &'json Json, name: &str) -> Option<&'json Json>
    ensures { option_map (λ found. view found.now) result ≡ only name.now (view json.now) }
{
    if counts(json, 1) {
        json.get(name)
    } else {
        None
    }
}

/// The text in the member of this name.
pub fn text_at<'json>(json: &'json Json, name: &str) -> Option<&'json str>
    ensures { option_map (λ text. text.now) result ≡ named_text name.now (view json.now) }
{
    match json.get(name) {
        Some(found) => found.as_str(),
        None => None,
    }
}
