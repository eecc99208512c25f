//! A store of objects, which copies them: it encodes what it has decoded, and decodes what it has encoded.
ghost use Rattle.std.specs.Prelude.{◌≢◌, ◌≡◌, ℕ, List, [], All, IfErr, IfOk, Some};
ghost use Rattle.std.specs.List.{AllPass};
ghost use Rattle.gix_object.specs.BorrowedObjects.{borrowed_kind, encode_borrowed_object};
ghost use Rattle.gix_object.specs.Commit.{CommitLines, DecodesToCommit};
ghost use Rattle.gix_object.specs.CommitWriting.{encode_commit};
ghost use Rattle.gix_object.specs.Entries.{EntryView};
ghost use Rattle.gix_object.specs.Hash.{id_kind, id_of, is_lower_hex_digit};
ghost use Rattle.gix_object.specs.Hash.Borrowed.{borrowed_id};
ghost use Rattle.gix_object.specs.LooseObjects.{IsLooseObject};
ghost use Rattle.gix_object.specs.Rewriting.{AreNormalizedPartsOfCommit};
ghost use Rattle.gix_object.specs.TreeDecoding.{DecodesToTree};
ghost use Rattle.gix_object.specs.TreeEncoding.{IsEncodableTree, encode_tree};
ghost use Rattle.gix_object.specs.TreeRewriting.{HasCanonicalModes, RoundTrips};
ghost use Rattle.gix_object.specs.object.object.borrowed.ObjectRef.{ObjectRef};
ghost use Rattle.gixobj_examples_objects.specs.Copies.{FailsForPart, FailsForRoom, IsRoundTripError};
ghost use Rattle.gixobj_examples_objects.specs.CopiesById.{IsTakeError};

use gix_object::data::verify;
use gix_object::hash::{Kind, oid};
use gix_object::laws::{
    commit_decodes_uniquely, commit_reencodes_identically, owned_commit_has_same_parts,
    tree_decodes_uniquely, tree_reencodes_identically, tree_round_trips,
    write_error_implies_sink_error,
};
use gix_object::{
    CommitRef, Data, LooseDecodeError, ObjectRef, Tree, TreeRef, WriteTo, decode, encode,
};
use std::alloc::Global;

/// The error of a copy: the call decodes an object and encodes it.
#[derive(Debug, Drop, thiserror::Error)]
pub enum CopyError {
    /// The bytes aren't decoded, for this cause.
    #[error("not read: {0}")]
    Read(decode::Error),
    /// The object isn't encoded, for this cause.
    #[error("not written: {0}")]
    Write(encode::Error),
}

/// Decodes a commit and encodes it. The result equals the bytes if the ids of the tree and the parents are in
/// lower case.
///
/// Allocates the decoded commit and the encoding.
///
/// # Errors
///
/// - [`CopyError::Read`] if the bytes are malformed, or allocation fails;
/// - [`CopyError::Write`] if the encoding header is empty, or allocation fails.
pub fn copy_of(alloc: Global, bytes: &[u8], kind: Kind) -> Result<Vec<u8>, CopyError>
    ensures same_bytes { IfOk result (λ copy. (commit : CommitLines)
        → DecodesToCommit kind bytes.now commit
        → AllPass is_lower_hex_digit commit.tree
        → All (λ hex. AllPass is_lower_hex_digit hex) commit.parents → copy.items ≡ bytes.now) }
    ensures error { IfErr result (λ error. (commit : CommitLines)
        → DecodesToCommit kind bytes.now commit
        → commit.encoding ≢ Some [] → FailsForRoom error) }
{
    commit_decodes_uniquely();
    commit_reencodes_identically();
    let commit = match CommitRef::from_bytes(alloc, bytes, kind) {
        Ok(commit) => commit,
        Err(error) => return Err(CopyError::Read(error)),
    };
    write_error_implies_sink_error(&commit);
    let mut copy = Vec::new(alloc);
    match commit.write_to_vec(alloc, &mut copy) {
        Ok(()) => Ok(copy),
        Err(error) => Err(CopyError::Write(error)),
    }
}

/// Decodes a tree and encodes it. The result equals the bytes if each mode is in canonical form.
///
/// Allocates the entries and the encoding.
///
/// # Errors
///
/// - [`CopyError::Read`] if the bytes are malformed, or allocation fails;
/// - [`CopyError::Write`] if allocation fails.
pub fn tree_copy_of(alloc: Global, bytes: &[u8], kind: Kind) -> Result<Vec<u8>, CopyError>
    ensures same_bytes { IfOk result (λ copy. (entries : List EntryView)
        → HasCanonicalModes kind bytes.now entries → copy.items ≡ bytes.now) }
    ensures error { IfErr result (λ error. (entries : List EntryView)
        → DecodesToTree kind bytes.now entries → FailsForRoom error) }
{
    tree_decodes_uniquely();
    tree_reencodes_identically();
    let tree = match TreeRef::from_bytes(alloc, bytes, kind) {
        Ok(tree) => tree,
        Err(error) => return Err(CopyError::Read(error)),
    };
    write_error_implies_sink_error(&tree);
    let mut written = Vec::new(alloc);
    match tree.write_to_vec(alloc, &mut written) {
        Ok(()) => Ok(written),
        Err(error) => Err(CopyError::Write(error)),
    }
}

/// Decodes a commit, and encodes an owned copy of it.
///
/// The copy has the decoded parts, with ids in lower case, and with actors and times as they are encoded.
/// Allocates the decoded commit, its owned copy and the encoding.
///
/// # Errors
///
/// - [`CopyError::Read`] if the bytes are malformed, or allocation fails;
/// - [`CopyError::Write`] with `IllegalActor` if an actor has a byte that no owned one may have;
/// - [`CopyError::Write`] with `EmptyValue` if the encoding header is empty, or with `Writer` of kind
///   `OutOfMemory` if allocation fails.
pub fn owned_copy_of(alloc: Global, bytes: &[u8], kind: Kind) -> Result<Vec<u8>, CopyError>
    ensures parts { IfOk result (λ copy. (commit own : CommitLines)
        × DecodesToCommit kind bytes.now commit × AreNormalizedPartsOfCommit commit own
        × (copy.items ≡ encode_commit own)) }
    ensures error { IfErr result (λ error. (commit : CommitLines)
        → DecodesToCommit kind bytes.now commit → FailsForPart commit error) }
{
    owned_commit_has_same_parts();
    commit_decodes_uniquely();
    let commit = match CommitRef::from_bytes(alloc, bytes, kind) {
        Ok(commit) => commit,
        Err(error) => return Err(CopyError::Read(error)),
    };
    let owned = match commit.into_owned(alloc) {
        Ok(owned) => owned,
        Err(error) => return Err(CopyError::Read(error)),
    };
    let mut copy = Vec::new(alloc);
    match owned.write_to_vec(alloc, &mut copy) {
        Ok(()) => Ok(copy),
        Err(error) => Err(CopyError::Write(error)),
    }
}

/// Encodes a tree and returns the tree to which the encoding decodes. It equals the first if each entry
/// round-trips.
///
/// Allocates the encoding, and the entries of the result.
///
/// # Errors
///
/// - [`CopyError::Write`] if the tree can't be encoded, or allocation fails;
/// - [`CopyError::Read`] if its encoding is that of no tree, or allocation fails.
///
/// If each entry round-trips, the call fails only for memory.
pub fn round_trip(alloc: Global, tree: &Tree, kind: Kind) -> Result<Tree, CopyError>
    ensures unchanged { IfOk result (λ decoded. All (RoundTrips kind) tree.now
        → decoded ≡ tree.now) }
    ensures decoded { IfOk result (λ decoded. IsEncodableTree tree.now
        × DecodesToTree kind (encode_tree tree.now) decoded) }
    ensures error { IfErr result (λ error. All (RoundTrips kind) tree.now → FailsForRoom error) }
    ensures cause { IfErr result (IsRoundTripError kind tree.now) }
{
    tree_decodes_uniquely();
    tree_round_trips();
    tree_reencodes_identically();
    write_error_implies_sink_error(tree);
    let mut bytes = Vec::new(alloc);
    if let Err(error) = tree.write_to_vec(alloc, &mut bytes) {
        return Err(CopyError::Write(error));
    }
    let decoded = match TreeRef::from_bytes(alloc, &bytes, kind) {
        Ok(decoded) => decoded,
        Err(error) => return Err(CopyError::Read(error)),
    };
    match decoded.into_owned(alloc) {
        Ok(copy) => Ok(copy),
        Err(error) => Err(CopyError::Read(error.into())),
    }
}

/// The error of [`taken_over`].
#[derive(Debug, Drop, thiserror::Error)]
pub enum TakeError {
    /// The loose object isn't decoded.
    #[error("not read: {0}")]
    Read(LooseDecodeError),
    /// The object isn't encoded.
    #[error("not written: {0}")]
    Write(encode::Error),
    /// The encoding has another id.
    #[error("{0}")]
    Verify(verify::Error),
}

/// Decodes the loose object with this id, of any kind, and returns its encoding, which has the id
/// (gitformat-loose, "Loose object format").
///
/// Allocates the decoded object and the encoding.
///
/// # Errors
///
/// - [`TakeError::Read`] with the error of decoding, if the bytes aren't a loose object, or allocation fails;
/// - [`TakeError::Write`] with the error of the encoding, if a part is invalid, or allocation fails;
/// - [`TakeError::Verify`] with both ids, if the encoding has another id.
pub fn taken_over(alloc: Global, loose: &[u8], id: oid<'_>) -> Result<Vec<u8>, TakeError>
    ensures object { IfOk result (λ copy. (object : ObjectRef)
        × IsLooseObject (id_kind (borrowed_id id.entry)) loose.now object
        × (copy.items ≡ encode_borrowed_object object)
        × (id_of (id_kind (borrowed_id id.entry)) (borrowed_kind object) copy.items
        ≡ borrowed_id id.entry)) }
    ensures error { IfErr result (IsTakeError loose.now (borrowed_id id.entry)) }
{
    let object = match ObjectRef::from_loose(alloc, loose, id.kind()) {
        Ok(object) => object,
        Err(error) => return Err(TakeError::Read(error)),
    };
    let mut bytes = Vec::new(alloc);
    if let Err(error) = object.write_to_vec(alloc, &mut bytes) {
        return Err(TakeError::Write(error));
    }
    match Data::new(&bytes, object.kind(), id.kind()).verify_checksum(id) {
        Ok(_) => Ok(bytes),
        Err(error) => Err(TakeError::Verify(error)),
    }
}
