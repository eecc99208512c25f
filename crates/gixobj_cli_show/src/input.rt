//! Standard input, read to its end.
ghost use Rattle.std.specs.Prelude.{◌≡◌, IfOk, IfErr, OnOk};
ghost use Rattle.std.specs.Io.KnownBytes.{Consumes, IsAtEnd};
ghost use Rattle.gixobj_cli_show.specs.Input.{IsInputError};

use crate::failure::Failure;
use gixobj_streams::streams::Source;
use std::alloc::Global;

/// Reads all remaining bytes of a source into a list, which allocates.
///
/// # Errors
///
/// - [`Failure::InputFailed`] if the source fails.
/// - [`Failure::OutOfMemory`] if the allocation of the bytes failed.
pub fn read_all<S: Source>(alloc: Global, source: &mut S) -> Result<Vec<u8>, Failure>
    ensures all { IfOk result (λ bytes. Consumes (S.rest source.old) (S.rest source.new)
        bytes.items) }
    ensures end { OnOk result (IsAtEnd (S.rest source.new)) }
    ensures error { IfErr result (IsInputError (S.may_fail source.old)) }
    ensures same_loan { S.loan source.new ≡ S.loan source.old }
{
    let mut bytes = Vec::new(alloc);
    let mut chunk = [0u8; 4096];
    'chunks: loop {
        let count = match source.read_some(&mut chunk) {
            Ok(count) => count,
            Err(_) => return Err(Failure::InputFailed),
        };
        if count == 0 {
            return Ok(bytes);
        }
        if bytes.extend_from_slice(&chunk[..count]).is_err() {
            return Err(Failure::OutOfMemory);
        }
    }
}
