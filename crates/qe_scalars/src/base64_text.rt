//! Bytes as text, in base64.
ghost use Rattle.std.specs.Prelude.{◌≡◌, IfOk};
ghost use Rattle.qe_scalars.specs.Bytes.{bytes_of};

use base64::DecodeAllocError;
use base64::engine::general_purpose::STANDARD;
use qe_text::{Bytes, Memory};
use std::alloc::Global;

/// The bytes that a text stands for, and None where it is not base64.
pub fn bytes_in(alloc: Global, text: &str) -> Result<Option<Bytes>, Memory>
    ensures { IfOk result (λ found. found ≡ bytes_of text.now) }
{
    match STANDARD.decode(alloc, text.as_bytes()) {
        Ok(bytes) => Ok(Some(Bytes::from_vec(bytes))),
        Err(DecodeAllocError::DecodeError(_)) => Ok(None),
        Err(DecodeAllocError::OutOfMemory) => Err(Memory),
    }
}
