//! Reads of a source piece by piece.
ghost use Rattle.std.specs.Prelude.{◌≡◌, ◌<◌, ◌≤◌, IfErr, IfOk, length, take};
ghost use Rattle.std.specs.Io.{ReadsAtMost};
ghost use Rattle.std.specs.Io.KnownBytes.{Consumes};
ghost use Rattle.gixobj_encode.specs.StreamHash.{IsStreamError};

use crate::stream_hash::Error;
use gixobj_streams::streams::Source;

/// The maximum number of bytes of one read.
pub const BUFFER_LEN: usize = 8192;

/// Reads some of the next `most` bytes of a source into the beginning of the buffer, and returns their
/// number, which is at least 1. Allocates nothing.
///
/// # Errors
///
/// - [`Error::Io`] if the read fails;
/// - [`Error::UnexpectedEof`] if the source has ended.
#[tactic(auto, using(crate::proofs::StreamReads::stream_error_of_read, crate::proofs::StreamReads::stream_error_of_end, crate::proofs::StreamReads::consumes_take))]
pub fn read_piece<S: Source>(source: &mut S, buffer: &mut [u8], most: u64) -> Result<usize, Error>
    requires positive { 0 < most }
    requires has_capacity { 0 < length buffer.old }
    ensures count { IfOk result (λ count. (0 < count) × (count ≤ most)) }
    ensures bound { ReadsAtMost result buffer.new }
    ensures consumed { IfOk result (λ count.
        Consumes (S.rest source.old) (S.rest source.new) (take count buffer.new)) }
    ensures error { IfErr result (IsStreamError (S.may_fail source.old) (S.rest source.old)
        (S.rest source.new) most) }
    ensures stays_valid { S.may_fail source.new → S.may_fail source.old }
    ensures same_loan { S.loan source.new ≡ S.loan source.old }
{
    let room = most.min(buffer.len() as u64) as usize;
    let count = source.read_some(&mut buffer[..room])?;
    if count == 0 {
        return Err(Error::UnexpectedEof);
    }
    Ok(count)
}
