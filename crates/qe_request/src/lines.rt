//! Lines, read as operations.
ghost use Rattle.std.specs.Prelude.{◌≡◌, option_map, Err, IfOk, IsTrue};
ghost use Rattle.serde_json.specs.View.{view};
ghost use Rattle.qe_reading.specs.CarriedOut.{is_carried_out};
ghost use Rattle.qe_writing.specs.WriteFits.{op_fits};
ghost use Rattle.qe_forms.specs.Request.{json_of, asked_of, asks, not_json, unbuilt};

use crate::operations::request;
use qe_base::{Memory, Op};
use qe_schema::Schema;
use serde_json::{Category, Value as Json};
use std::alloc::Global;

/// Why a line has no operation.
#[derive(Clone, Copy, Debug, PartialEq, Eq)]
pub enum LineFault {
    /// It isn't JSON.
    NotJson,
    /// It is no request that is carried out yet.
    Unbuilt,
    /// An allocation was refused.
    Memory,
}

impl From<Memory> for LineFault {
    ghost use Rattle.qe_request.specs.declared.lines.LineFault.TheVariants as fault;

    ghost from_gives = { λ _ found. found ≡ fault.Memory };

    fn from(_: Memory) -> LineFault {
        LineFault::Memory
    }
}

fn json_in(alloc: Global, text: &[u8]) -> Result<Option<Json>, Memory>
    ensures { IfOk result (λ found. option_map view found ≡ json_of text.now) }
{
    match Json::from_slice(alloc, text) {
        Ok(json) => Ok(Some(json)),
        Err(error) => match error.classify() {
            Category::Memory => Err(Memory),
            _ => Ok(None),
        },
    }
}

/// The operation that a line asks for, which fits the schema and is carried out so far. Want of memory aside,
/// it is refused just where the line isn't JSON, or is no request that is carried out yet.
pub fn read_line(alloc: Global, schema: &Schema, text: &[u8]) -> Result<Op, LineFault>
    ensures ok { IfOk result (λ op. asked_of schema.now text.now ≡ asks op) }
    ensures fits { IfOk result (λ op. IsTrue (op_fits schema.now op)) }
    ensures carried { IfOk result (λ op. IsTrue (is_carried_out schema.now op)) }
    ensures not_json { result ≡ Err LineFault.NotJson → asked_of schema.now text.now ≡ not_json }
    ensures unbuilt { result ≡ Err LineFault.Unbuilt → asked_of schema.now text.now ≡ unbuilt }
{
    schema.is_sound();
    let Some(json) = json_in(alloc, text)? else {
        return Err(LineFault::NotJson);
    };
    request(alloc, schema, &json)?.ok_or(LineFault::Unbuilt)
}
