//! Faults of the object of a record.
ghost use Rattle.std.specs.Prelude.{◌≡◌, IfOk, None, OnErr};
ghost use Rattle.gix_object.specs.Hash.{id_kind, id_of};
ghost use Rattle.gixobj_cli_batch.specs.Checks.{HasBytesFault, IsChecked, IsOtherId};
ghost use Rattle.gixobj_fsck_objects.specs.Objects.{AreFindings};
ghost use Rattle.gixobj_records.specs.Records.{record_view};

use gix_object::hash::ObjectId;
use gix_object::{Data, DataExt, Kind, OutOfMemory, WriteTo, compute_hash, decode, encode, hash};
use gixobj_fsck_messages::{Finding, Options};
use gixobj_fsck_objects::fsck;
use gixobj_records::Record;
use std::alloc::{AllocError, Global};

/// A fault of the bytes of an object.
#[derive(Clone, Copy)]
pub(crate) enum BytesFault {
    /// The bytes are not the encoding of an object of its kind.
    Malformed,
    /// The object of the bytes encodes to other bytes, or has a part that isn't encoded.
    OtherBytes,
}

/// What the check of a record finds.
#[derive(Drop)]
pub(crate) enum Checked {
    /// The repository has no object with this id.
    Missing {
        /// The id.
        id: ObjectId,
    },
    /// The object with this id has these faults.
    Object {
        /// The id that the record states.
        id: ObjectId,
        /// The kind of the object.
        kind: Kind,
        /// The id of the bytes, if it is another.
        other: Option<ObjectId>,
        /// The fault of the bytes, if they have one.
        fault: Option<BytesFault>,
        /// Git's findings about the object.
        findings: Vec<Finding>,
    },
}

/// Checks a record. The buffer is for the encoding of its object. Allocates what its decoding, its encoding and git's
/// findings allocate.
pub(crate) fn check_record(
    alloc: Global,
    buffer: &mut Vec<u8>,
    strict: bool,
    it: Record<'_>,
) -> Result<Checked, OutOfMemory>
    ensures { IfOk result (IsChecked strict (record_view it.entry)) }
{
    match it {
        Record::Missing { id } => Ok(Checked::Missing { id }),
        Record::Object { id, kind, content } => {
            let other = other_id(id, kind, content);
            let fault = bytes_fault(alloc, buffer, id.kind(), kind, content)?;
            let options = Options::new(strict);
            let findings = git_findings(alloc, &options, id.kind(), kind, content)?;
            Ok(Checked::Object {
                id,
                kind,
                other,
                fault,
                findings,
            })
        }
    }
}

/// Returns the id of the bytes, if it isn't this one. Allocates nothing.
fn other_id(id: ObjectId, kind: Kind, content: &[u8]) -> Option<ObjectId>
    ensures { IsOtherId id kind content.now result }
{
    let actual = compute_hash(id.kind(), kind, content);
    if actual == id { None } else { Some(actual) }
}

/// Returns the fault of the bytes of an object with ids of this kind, or `None`. The buffer is for its encoding.
/// Allocates what its decoding and its encoding allocate.
fn bytes_fault(
    alloc: Global,
    buffer: &mut Vec<u8>,
    object_hash: hash::Kind,
    kind: Kind,
    content: &[u8],
) -> Result<Option<BytesFault>, OutOfMemory>
    ensures { IfOk result (HasBytesFault object_hash kind content.now) }
{
    let object = match Data::new(content, kind, object_hash).decode(alloc) {
        Ok(object) => object,
        Err(decode::Error::Malformed) => return Ok(Some(BytesFault::Malformed)),
        Err(decode::Error::OutOfMemory) => return Err(OutOfMemory),
    };
    buffer.clear();
    match object.write_to_vec(alloc, buffer) {
        Ok(()) if buffer.as_slice() == content => Ok(None),
        Ok(()) => Ok(Some(BytesFault::OtherBytes)),
        Err(encode::Error::Writer(_) | encode::Error::OutOfMemory) => Err(OutOfMemory),
        Err(_) => Ok(Some(BytesFault::OtherBytes)),
    }
}

/// Returns git's findings about an object with ids of this kind. A tree allocates, and so do findings.
fn git_findings(
    alloc: Global,
    options: &Options,
    object_hash: hash::Kind,
    kind: Kind,
    content: &[u8],
) -> Result<Vec<Finding>, AllocError>
    ensures { IfOk result (λ it.
        AreFindings options.now kind object_hash content.now it.items) }
{
    fsck(alloc, kind, object_hash, content, options)
}
