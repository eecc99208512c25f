//! Reads of the content of an object.
ghost use Rattle.std.specs.Prelude.{◌≡◌, ◌<◌, IfErr, IfOk, OnErr};
ghost use Rattle.gixobj_encode.specs.StreamHash.{ReadsExactly};
ghost use Rattle.gixobj_store_keep.specs.Memory.{IsContentError};

use crate::write::Error;
use gixobj_encode::pieces::{BUFFER_LEN, read_piece};
use gixobj_streams::streams::Source;
use std::alloc::Global;

/// Reads exactly the next `size` bytes of a source. Allocates them piece by piece.
pub(super) fn read_content<S: Source>(
    alloc: Global,
    source: &mut S,
    size: u64,
) -> Result<Vec<u8>, Error>
    ensures content { IfOk result (λ content.
        ReadsExactly (S.rest source.old) (S.rest source.new) size content.items) }
    ensures error { IfErr result (IsContentError (S.may_fail source.old) (S.rest source.old)
        (S.rest source.new) size) }
    ensures allocates { OnErr result (0 < size) }
    ensures same_loan { S.loan source.new ≡ S.loan source.old }
{
    let mut content = Vec::new(alloc);
    let mut buffer = [0; BUFFER_LEN];
    let mut missing = size;
    while missing > 0 {
        let count = read_piece(source, &mut buffer, missing)?;
        content.extend_from_slice(&buffer[..count])?;
        missing -= count as u64;
    }
    Ok(content)
}
