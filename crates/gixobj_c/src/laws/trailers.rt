//! The law of the calls about trailers: from a cursor of zeros on they find exactly the trailers of the message, and
//! then that none follows.
ghost use Rattle.std.specs.Prelude.{◌≡◌, IfOk, MatchResult, length};
ghost use Rattle.gixobj_c.specs.TrailerRuns.{AreTrailersOf, IsTrailerRunStatus};

use crate::commits::Cursor;
use crate::trailers::gixobj_trailer;
use gixobj_c_codes::codes::{AT_END, DONE, OUT_OF_MEMORY};
use std::alloc::{AllocError, Global};

/// A copy of what a call wrote.
#[derive(Debug, Drop)]
pub struct FoundTrailer {
    /// The token.
    pub token: Vec<u8>,
    /// The value.
    pub value: Vec<u8>,
}

/// Calls [`gixobj_trailer`] with these buffers until no trailer follows, and returns all trailers. Allocates them.
///
/// # Errors
///
/// [`BUFFER_TOO_SHORT`] only if a token or a value is longer than its buffer; [`OUT_OF_MEMORY`].
///
/// [`BUFFER_TOO_SHORT`]: gixobj_c_codes::codes::BUFFER_TOO_SHORT
pub fn message_trailers(
    alloc: Global,
    message: &[u8],
    token: &mut [u8],
    value: &mut [u8],
) -> Result<Vec<FoundTrailer>, u32>
    ensures { MatchResult result (λ found. AreTrailersOf message.now found.items)
        (IsTrailerRunStatus message.now (length token.old) (length value.old)) }
{
    let mut cursor = Cursor {
        offset: 0,
        state: 0,
    };
    let mut found = Vec::new(alloc);
    'calls: loop {
        let mut token_len = 0;
        let mut value_len = 0;
        let status = gixobj_trailer(
            alloc,
            message,
            &mut cursor,
            token,
            &mut token_len,
            value,
            &mut value_len,
        );
        if status == AT_END {
            return Ok(found);
        }
        if status != DONE {
            return Err(status);
        }
        let Ok(trailer) = copied(alloc, &token[..token_len], &value[..value_len]) else {
            return Err(OUT_OF_MEMORY);
        };
        let Ok(()) = found.push(trailer) else {
            return Err(OUT_OF_MEMORY);
        };
    }
}

/// Copies the token and the value of a trailer.
fn copied(alloc: Global, token: &[u8], value: &[u8]) -> Result<FoundTrailer, AllocError>
    ensures token { IfOk result (λ it. it.token.items ≡ token.now) }
    ensures value { IfOk result (λ it. it.value.items ≡ value.now) }
{
    let mut token_copy = Vec::new(alloc);
    token_copy.extend_from_slice(token)?;
    let mut value_copy = Vec::new(alloc);
    value_copy.extend_from_slice(value)?;
    Ok(FoundTrailer {
        token: token_copy,
        value: value_copy,
    })
}
