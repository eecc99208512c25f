//! Records of objects, one after the other.
ghost use Rattle.std.specs.Prelude.{◌≡◌, ◌∷◌, ◌++◌, IfErr, IfOk, length, map};
ghost use Rattle.gixobj_hash.specs.Bytes.{newline};
ghost use Rattle.gixobj_records.specs.Records.{BeginsWithRecord, DecodesToRecords, HasContentFault, HasRecordFault};
ghost use Rattle.gixobj_records.specs.Records.{IsBatchError, record_view};
ghost use Rattle.gixobj_records.specs.declared.records.BatchError.TheVariants as batch;
ghost use Rattle.gixobj_records.specs.declared.records.RecordFault.TheVariants as fault;

use crate::header::{Header, HeaderFault, decode_header};
use gixobj_hash::Kind;
use gixobj_hash::hash::ObjectId;
use gixobj_hash::split::split_at_byte;
use std::alloc::{AllocFailed, Global};

/// A record of an object. [`decode_records`] decodes them.
#[derive(Clone, Copy, Debug, PartialEq, Eq)]
pub enum Record<'a> {
    /// An object.
    Object {
        /// The id that the record states.
        id: ObjectId,
        /// The kind of the object.
        kind: Kind,
        /// The content of the object.
        content: &'a [u8],
    },
    /// The repository has no object with this id.
    Missing {
        /// The id.
        id: ObjectId,
    },
}

/// Why bytes don't begin with a record.
#[derive(Clone, Copy, Debug, PartialEq, Eq, thiserror::Error)]
pub enum RecordFault {
    /// The header has no newline.
    #[error("the header has no newline")]
    UnendedHeader,
    /// The line is no header.
    #[error("the header has {0}")]
    Header(HeaderFault),
    /// Fewer bytes follow the header than it states.
    #[error("the content is too short")]
    ShortContent,
    /// No newline follows the content.
    #[error("no newline follows the content")]
    NoNewline,
}

impl From<HeaderFault> for RecordFault {
    ghost from_gives = { λ cause it. it ≡ fault.Header cause };

    fn from(cause: HeaderFault) -> RecordFault {
        RecordFault::Header(cause)
    }
}

/// The error of [`decode_records`].
#[derive(Clone, Copy, Debug, PartialEq, Eq, thiserror::Error)]
pub enum BatchError {
    /// The bytes at this offset don't begin with a record.
    #[error("malformed record at byte {offset}: {fault}")]
    Malformed {
        /// The number of bytes before the malformed record.
        offset: usize,
        /// Why no record begins there.
        fault: RecordFault,
    },
    /// An allocation failed.
    #[error("out of memory")]
    OutOfMemory,
}

impl<T: Drop> From<AllocFailed<T>> for BatchError {
    ghost from_gives = { λ _ error. error ≡ batch.OutOfMemory };

    fn from(_: AllocFailed<T>) -> BatchError {
        BatchError::OutOfMemory
    }
}

/// Decodes the output of `git cat-file --batch` (git-cat-file, "BATCH OUTPUT"). Allocates the list.
///
/// A record is a line `<id> <kind> <size>`, the content, and a newline; or a line `<id> missing`. An id is in
/// lower-case hex, and its length decides the hash function. Ids are not compared with the contents.
///
/// # Errors
///
/// - [`BatchError::Malformed`] with the offset of the first record that is malformed, and its fault.
/// - [`BatchError::OutOfMemory`] if an allocation fails.
pub fn decode_records(alloc: Global, input: &[u8]) -> Result<Vec<Record<'_>>, BatchError>
    ensures found { IfOk result (λ records. DecodesToRecords input.now
        (map record_view records.items)) }
    ensures error { IfErr result (IsBatchError input.now) }
{
    let mut records = Vec::new(alloc);
    let mut rest = input;
    'records: while !rest.is_empty() {
        match decode_record(rest) {
            Ok((it, after)) => {
                records.push(it)?;
                rest = after;
            }
            Err(fault) => {
                let offset = input.len() - rest.len();
                return Err(BatchError::Malformed { offset, fault });
            }
        }
    }
    Ok(records)
}

/// Decodes the record at the beginning of the input. Returns it with the bytes after it. Allocates nothing.
///
/// # Errors
///
/// The first [`RecordFault`] of the record.
pub fn decode_record(input: &[u8]) -> Result<(Record<'_>, &[u8]), RecordFault>
    ensures found { IfOk result (λ it. BeginsWithRecord input.now (record_view it.0) it.1.now) }
    ensures error { IfErr result (HasRecordFault input.now) }
{
    let Some((line, after)) = split_at_byte(input, b'\n') else {
        return Err(RecordFault::UnendedHeader);
    };
    match decode_header(line)? {
        Header::Missing { id } => Ok((Record::Missing { id }, after)),
        Header::Object { id, kind, size } => {
            let (content, rest) = split_content(after, size)?;
            Ok((Record::Object { id, kind, content }, rest))
        }
    }
}

/// Splits the bytes after a header into a content of this size and the bytes after its newline.
fn split_content(after: &[u8], size: u64) -> Result<(&[u8], &[u8]), RecordFault>
    ensures found { IfOk result (λ it. (after.now ≡ it.0.now ++ newline ∷ it.1.now)
        × (length it.0.now ≡ size)) }
    ensures error { IfErr result (HasContentFault size after.now) }
{
    if size > after.len() as u64 {
        return Err(RecordFault::ShortContent);
    }
    let (content, rest) = after.split_at(size as usize);
    match rest {
        [b'\n', rest @ ..] => Ok((content, rest)),
        _ => Err(RecordFault::NoNewline),
    }
}
