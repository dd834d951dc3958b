//! The texts of replies.
ghost use Rattle.std.specs.Prelude.{◌≡◌, ◌++◌, ◌∷◌, [], false, option_map, IfOk};
ghost use Rattle.serde_json.specs.View.{view};
ghost use Rattle.serde_json.specs.Written.{has_float, compact_text};
ghost use Rattle.qe_forms.specs.Reply.{data_of, batch_data, told_data, told_text};

use crate::answers::answer_json;
use crate::errors::{fault_json, unseen_json};
use crate::transactions::{
    conflict_json, expired_json, full_json, no_transaction_json, number_json,
};
use qe_base::{Answer, Memory, OpFault, Reply};
use qe_schema::Schema;
use serde_json::{Value as Json, json};
use std::alloc::Global;
use std::marker::Model;

/// The text of a reply, with room for a newline behind it.
#[derive(Drop)]
pub struct ReplyText {
    bytes: Vec<u8>,
}

impl Model for ReplyText {
    ghost use Rattle.std.specs.Prelude.{ℕ, List, ◌<◌, length, vec_capacity};

    ghost Value = { List ℕ };

    ghost view = { λ t. t.bytes.items };

    ghost invariant = { λ t. length t.bytes.items < vec_capacity t.bytes };
}

impl ReplyText {
    ghost use Rattle.std.specs.Prelude.{◌<◌, length, vec_capacity};

    /// The text that a vector holds, which has room for a byte more.
    pub(crate) fn of(bytes: Vec<u8>) -> ReplyText
        requires { length bytes.items < vec_capacity bytes }
        ensures { result ≡ bytes.items }
    {
        ReplyText { bytes }
    }

    pub fn as_slice(&self) -> &[u8]
        ensures { result.now ≡ self.now }
    {
        self.bytes.as_slice()
    }

    /// The text and a newline. It takes no memory.
    pub fn with_newline(self) -> Vec<u8>
        ensures { result.items ≡ self ++ 10 ∷ [] }
    {
        let ReplyText { mut bytes } = self;
        bytes.push_reserved(b'\n');
        bytes
    }
}

fn print(alloc: Global, json: &Json) -> Result<ReplyText, Memory>
    requires { has_float (view json.now) ≡ false }
    ensures { IfOk result (λ text. text ≡ compact_text (view json.now)) }
{
    let mut bytes = json.to_string(alloc)?.into_bytes();
    bytes.reserve(1)?;
    Ok(ReplyText::of(bytes))
}

/// The JSON of an operation's answer.
fn data_json(alloc: Global, found: &Answer) -> Result<Json, Memory>
    ensures { IfOk result (λ json. view json ≡ data_of found.now) }
{
    let inner = answer_json(alloc, found)?;
    Ok(json!(in alloc; {"data": inner})?)
}

/// The JSON of a batch's answers.
fn batch_json(alloc: Global, found: &[Answer]) -> Result<Json, Memory>
    ensures { IfOk result (λ json. view json ≡ batch_data found.now) }
{
    let mut items = Vec::new(alloc);
    for answer in found {
        let item = data_json(alloc, answer)?;
        items.push(item)?;
    }
    let items = Json::Array(items);
    Ok(json!(in alloc; {"batchResult": items})?)
}

/// The JSON of a reply. A greeting, and want of memory, for which a fixed text stands, have none.
fn reply_json(alloc: Global, schema: &Schema, reply: &Reply) -> Result<Option<Json>, Memory>
    ensures { IfOk result (λ json. option_map view json ≡ told_data schema.now reply.now) }
{
    let json = match reply {
        Reply::Hello => return Ok(None),
        Reply::Answer(found) => data_json(alloc, found)?,
        Reply::Answers(found) => batch_json(alloc, found.as_slice())?,
        Reply::Started(number) => number_json(alloc, "id", *number)?,
        Reply::Committed(number) => number_json(alloc, "committed", *number)?,
        Reply::RolledBack(number) => number_json(alloc, "rolledBack", *number)?,
        Reply::Refused { index, fault } => fault_json(alloc, schema, *index, *fault)?,
        Reply::Unknown { asked, next } => no_transaction_json(alloc, "unknown", *asked, *next)?,
        Reply::Closed { asked, next } => no_transaction_json(alloc, "closed", *asked, *next)?,
        Reply::Expired { deadline, moment } => expired_json(alloc, *deadline, *moment)?,
        Reply::Full => full_json(alloc)?,
        Reply::Conflict { table, start, now } => {
            conflict_json(alloc, schema, *table, *start, *now)?
        }
        Reply::Unseen { asked, place } => unseen_json(alloc, *asked, *place)?,
        Reply::Memory => return Ok(None),
    };
    Ok(Some(json))
}

/// The text of a reply. A greeting, and want of memory, for which a fixed text stands, have none.
#[tactic(auto, using(crate::proofs::Whole::reply_whole))]
pub fn write_reply(
    alloc: Global,
    schema: &Schema,
    reply: &Reply,
) -> Result<Option<ReplyText>, Memory>
    ensures { IfOk result (λ text. text ≡ told_text schema.now reply.now) }
{
    match reply_json(alloc, schema, reply)? {
        None => Ok(None),
        Some(json) => Ok(Some(print(alloc, &json)?)),
    }
}
