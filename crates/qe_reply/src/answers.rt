//! Answers as JSON.
ghost use Rattle.std.specs.Prelude.{◌≡◌, map, IfOk};
ghost use Rattle.serde_json.specs.Data.{no_members};
ghost use Rattle.serde_json.specs.View.{view, items_of, items_view, members_view};
ghost use Rattle.qe_forms.specs.Reply.{scalar_data, put_all, answer_data};

use qe_base::{Answer, Memory, Text, Value};
use serde_json::{Map, Value as Json};
use std::alloc::Global;

/// No answer has a value of the other kinds yet, and null stands for it.
fn scalar_json(alloc: Global, value: &Value) -> Result<Json, Memory>
    ensures { IfOk result (λ json. view json ≡ scalar_data value.now) }
{
    match value {
        Value::Null => Ok(Json::Null),
        Value::Text(text) => Ok(Json::try_from_str(alloc, text.get().as_str())?),
        Value::Bool(_) => Ok(Json::Null),
        Value::Int(number) => Ok(Json::from(*number)),
        Value::Moment(_) => Ok(Json::Null),
        Value::Blob(_) => Ok(Json::Null),
        Value::Member(_) => Ok(Json::Null),
    }
}

/// An answer as JSON.
#[cycle(answer_json)]
pub fn answer_json(alloc: Global, answer: &Answer) -> Result<Json, Memory>
    ensures { IfOk result (λ json. view json ≡ answer_data answer.now) }
{
    match answer {
        Answer::Null => Ok(Json::Null),
        Answer::Scalar(_, value) => scalar_json(alloc, value),
        Answer::Number(count) => Ok(Json::from(*count)),
        Answer::Object(members) => Ok(Json::Object(members_json(alloc, members.as_slice())?)),
        Answer::List(items) => Ok(Json::Array(items_json(alloc, items.as_slice())?)),
    }
}

#[cycle(answer_json)]
fn members_json(alloc: Global, members: &[(Text, Answer)]) -> Result<Map<String, Json>, Memory>
    ensures { IfOk result (λ found. members_view found.entries ≡ put_all (map (λ one. (one.0, answer_data one.1)) members.now) no_members) }
{
    let mut found = Map::new(alloc);
    for member in members {
        let inner = answer_json(alloc, &member.1)?;
        serde_json::put(&mut found, alloc, member.0.as_str(), inner)?;
    }
    Ok(found)
}

#[cycle(answer_json)]
fn items_json(alloc: Global, items: &[Answer]) -> Result<Vec<Json>, Memory>
    ensures { IfOk result (λ found. items_view found.items ≡ items_of (map answer_data items.now)) }
{
    let mut found = Vec::new(alloc);
    for item in items {
        let inner = answer_json(alloc, item)?;
        found.push(inner)?;
    }
    Ok(found)
}
