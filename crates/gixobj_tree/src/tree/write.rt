//! Encoding of trees (gitdatamodel, "trees").
ghost use Rattle.std.specs.Prelude.{◌≡◌, ◌<◌, ◌≤◌, ◌+◌, ◌*◌, ◌^◌, [], ◌∷◌, ◌++◌, length, IfErr, OnOk};
ghost use Rattle.std.specs.Option.{SomeIff};
ghost use Rattle.gixobj_hash.specs.Bytes.{space};
ghost use Rattle.gixobj_hash.specs.Hash.{id_bytes};
ghost use Rattle.gixobj_hash.specs.Hash.Borrowed.{borrowed_id};
ghost use Rattle.gixobj_hash.specs.ByteStrings.{IsByteFree};
ghost use Rattle.gixobj_tree_entries.specs.Entries.{entry_of};
ghost use Rattle.gixobj_tree_entries.specs.Mode.{mode_bits, encode_mode};
ghost use Rattle.gixobj_tree_entries.specs.EntryViews.{entry_view};
ghost use Rattle.gixobj_tree.specs.TreeEncoding.{IsDigestResult, IsEntryEncodeError, encode_entry};
ghost use Rattle.gixobj_tree.specs.TreeSizes.{encode_mode_and_name, with_ids};
ghost use Rattle.gixobj_streams.specs.Streams.{AppendsAll, AppendsOrFails};
ghost use Rattle.gixobj_streams.specs.Writing.{AddsSize, IsWritingError, LacksRoom};

use super::{Entry, EntryMode, EntryRef, Tree};
use bstr::BString;
use gixobj_encode::WriteTo;
use gixobj_encode::encode::Error;
use gixobj_hash::Kind;
use gixobj_hash::hash::{self, ObjectId, oid};
use gixobj_hash::split::has_byte;
use gixobj_streams::streams::{Sink, write_parts};
use gixobj_tree_entries::{encode_kind, encoded_len};
use std::alloc::Global;
use std::io;

/// The encoding of a tree is its entries in their present order.
///
/// A name with a zero byte is rejected with [`Error::NullbyteInFilename`], after its entry's mode and
/// space.
impl WriteTo for Tree {
    ghost use Rattle.gixobj_tree.specs.TreeEncoding.{IsTreeEncodeError, encode_tree};
    ghost use Rattle.gixobj_hash.specs.declared.kind.Kind.TheVariants as kind;

    ghost object_kind = { λ _. kind.Tree };

    ghost encoding = { encode_tree };

    ghost rejects = { IsTreeEncodeError };

    fn write_into<S: Sink>(&self, alloc: Global, sink: &mut S) -> Result<(), Error> {
        for entry in &self.entries {
            write_entry_ref(alloc, &EntryRef::from(entry), sink)?;
        }
        Ok(())
    }

    fn kind(&self) -> Kind {
        Kind::Tree
    }

    fn size(&self) -> Option<u64> {
        let mut size = 0u64;
        let mut longer = 0u64;
        for entry in &self.entries {
            size = size_with_prefix(size, entry)?;
            longer += longer_one(&entry.oid);
        }
        size_with_ids(size, self.entries.len() as u64, longer)
    }
}

/// Adds the lengths of the mode and the name to a size, or returns `None` if the sum exceeds 64 bits.
#[inline(always)]
fn size_with_prefix(size: u64, entry: &Entry) -> Option<u64>
    ensures { AddsSize result size (encode_mode_and_name entry.now) }
{
    let with_name = size.checked_add(entry.filename.len() as u64)?;
    with_name.checked_add(encoded_len(entry.mode) as u64)
}

/// Returns 1 for an id of 32 bytes, and 0 for an id of 20.
#[inline(always)]
fn longer_one(id: &ObjectId) -> u64
    ensures len { length (id_bytes id.now) ≡ 20 + 12 * result }
    ensures bounded { result ≤ 1 }
{
    match id.as_bytes().len() {
        20 => 0,
        _ => 1,
    }
}

/// The length of a space, a zero byte and an id of 20 bytes.
const ID_LEN: u128 = 22;

/// The difference in length of an id of 32 bytes and one of 20.
const LONGER_BY: u128 = 12;

/// Adds the space, the zero byte and the id of each entry, or returns `None` if the sum exceeds 64 bits.
/// `longer` of the ids have 32 bytes, and the others 20.
fn size_with_ids(size: u64, entries: u64, longer: u64) -> Option<u64>
    ensures { SomeIff result (with_ids size entries longer < 2 ^ 64)
        (with_ids size entries longer) }
{
    let ids = ID_LEN * u128::from(entries) + LONGER_BY * u128::from(longer);
    u64::try_from(u128::from(size) + ids).ok()
}

impl Tree {
    /// Computes the id of the tree: the digest of its encoding, by this kind of hash. Allocates the
    /// encoding.
    ///
    /// # Errors
    ///
    /// - [`Error::Writer`] of kind `OutOfMemory`, if the allocation of the encoding failed.
    /// - [`Error::NullbyteInFilename`] with a copy of the name, if a name has a zero byte.
    /// - [`Error::OutOfMemory`] if a name has a zero byte, and the allocation of the copy failed.
    ///
    /// # Examples
    ///
    /// ```rust
    /// let tree = pair_of(alloc, names, kind, id).ok()?;
    /// let id = tree.compute_id(alloc, HashKind::Sha1).ok()?;
    /// filled.store.keep(id, &tree).ok()?;
    /// ```
    pub fn compute_id(&self, alloc: Global, hash: hash::Kind) -> Result<ObjectId, Error>
        ensures { IsDigestResult hash self.now result }
    {
        <Self as WriteTo>::compute_id(self, alloc, hash)
    }
}

/// Appends one entry.
#[inline(always)]
pub(super) fn write_entry_ref<S: Sink>(
    alloc: Global,
    entry: &EntryRef<'_>,
    sink: &mut S,
) -> Result<(), Error>
    ensures written { OnOk result (AppendsAll (S.view sink.old) (S.view sink.new)
        (encode_entry (entry_view entry.now))) }
    ensures encodable { OnOk result (IsByteFree 0 (entry_view entry.now).name) }
    ensures error { IfErr result (IsWritingError (IsEntryEncodeError (entry_view entry.now))
        (S.view sink.old) (S.view sink.new) (encode_entry (entry_view entry.now))) }
    ensures room { IfErr result (LacksRoom (IsEntryEncodeError (entry_view entry.now))
        (S.view sink.old)) }
    ensures same_loan { S.loan sink.new ≡ S.loan sink.old }
{
    let name = entry.filename.as_bytes();
    write_entry(alloc, entry.mode, name, entry.oid, sink)
}

/// Appends the entry of this mode, name and id. Only the sink and the copy of a rejected name allocate.
///
/// # Errors
///
/// - [`Error::NullbyteInFilename`] with a copy of the name, if the name has a zero byte.
/// - [`Error::OutOfMemory`] if the name has a zero byte, and the allocation of the copy failed.
/// - [`Error::Writer`] if the sink failed. A proper prefix of the entry has then been written.
///
/// At the first two errors the mode and a space have been written.
#[inline(always)]
pub fn write_entry<S: Sink>(
    alloc: Global,
    mode: EntryMode,
    name: &[u8],
    id: oid<'_>,
    sink: &mut S,
) -> Result<(), Error>
    ensures written { OnOk result (AppendsAll (S.view sink.old) (S.view sink.new)
        (encode_entry (entry_of (mode_bits mode) name.now (borrowed_id id.entry)))) }
    ensures encodable { OnOk result (IsByteFree 0 name.now) }
    ensures error { IfErr result (IsWritingError
        (IsEntryEncodeError (entry_of (mode_bits mode) name.now (borrowed_id id.entry))) (S.view sink.old)
        (S.view sink.new) (encode_entry (entry_of (mode_bits mode) name.now
        (borrowed_id id.entry)))) }
    ensures room { IfErr result (LacksRoom
        (IsEntryEncodeError (entry_of (mode_bits mode) name.now (borrowed_id id.entry)))
        (S.view sink.old)) }
    ensures same_loan { S.loan sink.new ≡ S.loan sink.old }
{
    write_mode(mode, sink)?;
    if has_byte(name, 0) {
        let name = BString::from_slice(alloc, name)?;
        return Err(Error::NullbyteInFilename { name });
    }
    write_name_and_id(name, id, sink)?;
    Ok(())
}

/// Appends the name, a zero byte and the id.
#[inline(always)]
#[tactic(auto, using(gixobj_streams::proofs::Appends::appends_prefix_first, gixobj_streams::proofs::Appends::appends_or_fails_append))]
fn write_name_and_id<S: Sink>(name: &[u8], id: oid<'_>, sink: &mut S) -> io::Result<()>
    ensures appended { AppendsOrFails result (S.view sink.old) (S.view sink.new)
        (name.now ++ 0 ∷ id_bytes (borrowed_id id.entry)) }
    ensures same_loan { S.loan sink.new ≡ S.loan sink.old }
{
    sink.write_bytes(name)?;
    write_id(id, sink)
}

/// Appends the mode and a space, in one append for the mode of an entry kind.
#[inline(always)]
fn write_mode<S: Sink>(mode: EntryMode, sink: &mut S) -> io::Result<()>
    ensures appended { AppendsOrFails result (S.view sink.old) (S.view sink.new)
        (encode_mode (mode_bits mode) ++ space ∷ []) }
    ensures same_loan { S.loan sink.new ≡ S.loan sink.old }
{
    if let Some(content) = encode_kind(mode) {
        return sink.write_bytes(content);
    }
    let mut backing = [0; 6];
    let digits = mode.as_bytes(&mut backing);
    write_parts(&[digits.as_bytes(), b" "], sink)
}

/// Appends a zero byte and the id, in one append for an id of 20 bytes.
#[inline(always)]
fn write_id<S: Sink>(id: oid<'_>, sink: &mut S) -> io::Result<()>
    ensures appended { AppendsOrFails result (S.view sink.old) (S.view sink.new)
        (0 ∷ id_bytes (borrowed_id id.entry)) }
    ensures same_loan { S.loan sink.new ≡ S.loan sink.old }
{
    match <[u8; 20]>::try_from(id.as_bytes()) {
        Ok(bytes) => {
            let mut content = [0; 21];
            content[1..].copy_from_slice(&bytes);
            sink.write_bytes(&content)
        }
        Err(_) => write_parts(&[b"\0", id.as_bytes()], sink),
    }
}

/// Adds the length of the entry to a size, or returns `None` if the sum exceeds 64 bits.
#[inline(always)]
pub(super) fn size_with_entry_ref(size: u64, entry: &EntryRef<'_>) -> Option<u64>
    ensures { AddsSize result size (encode_entry (entry_view entry.now)) }
{
    size_with(size, entry.mode, entry.filename.as_bytes(), entry.oid)
}

/// Adds the length of the entry of this mode, name and id to a size in bytes.
///
/// Returns `None` if the sum exceeds 64 bits. Allocates nothing.
pub fn size_with(size: u64, mode: EntryMode, name: &[u8], id: oid<'_>) -> Option<u64>
    ensures { AddsSize result size (encode_entry
        (entry_of (mode_bits mode) name.now (borrowed_id id.entry))) }
{
    let next_to_name = encoded_len(mode) + 2 + id.as_bytes().len();
    let with_name = size.checked_add(name.len() as u64)?;
    with_name.checked_add(next_to_name as u64)
}
