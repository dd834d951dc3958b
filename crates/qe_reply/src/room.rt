//! Room for the text of a failed connector.
ghost use Rattle.std.specs.Prelude.{◌≡◌, ◌+◌, ◌≤◌, ◌++◌, [], codes, decimal, length, vec_len, vec_capacity};
ghost use Rattle.serde_json.specs.Written.{compact_text};
ghost use Rattle.qe_forms.specs.Reply.{connector_data};
ghost use Rattle.qe_reply.specs.Room.{index_text};

use crate::texts::ReplyText;
use itoa::Buffer;
use qe_base::Memory;
use std::alloc::Global;

/// How many bytes there is room for: the longest text has less than a hundred besides its three numbers.
const ROOM: usize = 256;

/// Room for the text of a connector that fails. It is taken before the connector is called, so that a fault can
/// be answered whatever memory there is by then.
#[derive(Drop)]
pub struct FaultRoom {
    bytes: Vec<u8>,
    ghost empty: { bytes.items ≡ [] },
    ghost room: { 256 ≤ vec_capacity bytes },
}

/// Puts a piece behind what is there. It takes no memory.
fn put(bytes: &mut Vec<u8>, piece: &[u8])
    requires { vec_len bytes.old + length piece.now ≤ vec_capacity bytes.old }
    ensures items { bytes.new.items ≡ bytes.old.items ++ piece.now }
    ensures len { vec_len bytes.new ≡ vec_len bytes.old + length piece.now }
    ensures capacity { vec_capacity bytes.old ≤ vec_capacity bytes.new }
{
    let _ = bytes.extend_from_slice(piece);
}

/// Puts the digits of a number behind what is there. It takes no memory.
fn put_number(bytes: &mut Vec<u8>, number: u64)
    requires { vec_len bytes.old + 40 ≤ vec_capacity bytes.old }
    ensures items { bytes.new.items ≡ bytes.old.items ++ decimal number }
    ensures len { vec_len bytes.new ≤ vec_len bytes.old + 40 }
    ensures capacity { vec_capacity bytes.old ≤ vec_capacity bytes.new }
{
    let mut buffer = Buffer::new();
    put(bytes, buffer.format(number).as_bytes());
}

/// Puts the index of an operation, where there is one.
fn put_index(bytes: &mut Vec<u8>, index: Option<u64>)
    requires { vec_len bytes.old + 60 ≤ vec_capacity bytes.old }
    ensures items { bytes.new.items ≡ bytes.old.items ++ index_text index }
    ensures len { vec_len bytes.new ≤ vec_len bytes.old + 60 }
    ensures capacity { vec_capacity bytes.old ≤ vec_capacity bytes.new }
{
    if let Some(index) = index {
        put(bytes, b"\"index\":");
        put_number(bytes, index);
        put(bytes, b",");
    }
}

impl FaultRoom {
    /// Room for the text of one fault.
    pub fn new(alloc: Global) -> Result<FaultRoom, Memory> {
        Ok(FaultRoom {
            bytes: Vec::with_capacity(alloc, ROOM)?,
        })
    }

    /// The text of a fault in the operation of an index, where one is given, with the connector's count of faults
    /// before and after. It takes no memory.
    pub fn text(self, index: Option<u64>, before: u64, after: u64) -> ReplyText
        ensures { result ≡ compact_text (connector_data index before after) }
    {
        let FaultRoom { mut bytes } = self;
        put(
            &mut bytes,
            b"{\"error\":{\"cause\":\"connector\",\"code\":\"E1\",",
        );
        put_index(&mut bytes, index);
        put(&mut bytes, b"\"meta\":{\"after\":");
        put_number(&mut bytes, after);
        put(&mut bytes, b",\"before\":");
        put_number(&mut bytes, before);
        put(&mut bytes, b"}}}");
        ReplyText::of(bytes)
    }
}
