//! Lookups of objects that have to exist and to be of a kind.
ghost use Rattle.std.specs.Prelude.{◌≡◌, [], IfErr, IfOk, IsOkAnd};
ghost use Rattle.gixobj_commit.specs.CommitViews.{BorrowsOneLineValues, commit_lines};
ghost use Rattle.gixobj_commit.specs.CommitWriting.{HasIds};
ghost use Rattle.gixobj_store.specs.EntrySteps.{IsAtEntry};
ghost use Rattle.gixobj_store.specs.Stores.{Names, stored};
ghost use Rattle.gixobj_hash.specs.Hash.{IsIdHex};
ghost use Rattle.gixobj_hash.specs.Hash.Borrowed.{borrowed_id};
ghost use Rattle.gixobj_hash.specs.declared.kind.Kind.TheVariants as object;
ghost use Rattle.gixobj_store_find.specs.Existing.{IsEmptyId, IsContentLookupError, IsDecodingLookupError};
ghost use Rattle.gixobj_store_find.specs.Existing.{NamesEncoding, IsExistingError, IsFindObjectError, IsReaderError};
ghost use Rattle.gixobj_grammar.specs.Commit.{DecodesToCommit};
ghost use Rattle.gixobj_store_find.specs.declared.find.existing_iter.Error.TheVariants as iter_error;
ghost use Rattle.gixobj_store_keep.specs.ExistingTrees.{NamesSuch};
ghost use Rattle.gixobj_store_keep.specs.declared.find.existing_object.Error.TheVariants as decoded;
ghost use Rattle.gixobj_object.specs.BorrowedObjects.{BorrowsHeaderLines, HasObjectIds};
ghost use Rattle.gixobj_tokens.specs.TagTokenSteps.{IsAtStartOfTag};
ghost use Rattle.gixobj_tag.specs.TagFormat.{DecodesToTag};
ghost use Rattle.gixobj_tag.specs.TagViews.{tag_lines};
ghost use Rattle.gixobj_tokens.specs.CommitTokenSteps.{IsAtStartOfCommit};
ghost use Rattle.gixobj_tree_entries.specs.TreeDecoding.{DecodesToTree};
ghost use Rattle.gixobj_tree.specs.TreeViews.{tree_entries};

use crate::find::{existing, existing_iter, existing_object};
use gixobj_commit::CommitRef;
use gixobj_hash::Kind;
use gixobj_hash::hash::{ObjectId, oid};
use gixobj_object::{DataExt, ObjectRef};
use gixobj_store::{Data, Find, TreeRefIter};
use gixobj_store_keep::find::existing_tree;
use gixobj_tag::TagRef;
use gixobj_tokens::{CommitRefIter, TagRefIter};
use gixobj_tree::{BlobRef, TreeRef};
use std::alloc::Global;

/// Lookups of objects that have to exist (git-cat-file). Implemented for every [`Find`].
///
/// The object's bytes are written to `buffer`, which the result borrows. After an error `buffer` may hold any
/// bytes. What a lookup allocates depends on the store.
///
/// An allocation failure in the lookup is `Find` with `OutOfMemory`. One while the object is decoded is
/// `Decode` with `OutOfMemory`.
pub trait FindExt: Find {
    /// Looks up the object that `id` names, without decoding it. Allocates only in the lookup.
    ///
    /// # Errors
    ///
    /// - [`existing::Error::Find`] with the error of the lookup if it fails.
    /// - [`existing::Error::NotFound`] with `id` if it names no object.
    final fn find<'a>(
        &self,
        id: oid<'_>,
        buffer: &'a mut Vec<u8>,
    ) -> Result<Data<'a>, existing::Error>
        ensures found { IfOk result (λ it.
            Names (Self.objects self.now) (borrowed_id id.entry) (stored it)) }
        ensures error { IfErr result (IsExistingError (Self.objects self.now)
            (Self.may_fail self.now) (borrowed_id id.entry)) }
    {
        match self.try_find(id, buffer)? {
            Some(it) => Ok(it),
            None => Err(existing::Error::NotFound { oid: id.to_owned() }),
        }
    }

    /// Looks up and decodes the blob that `id` names.
    ///
    /// The empty blob is found in every store, without a lookup. Allocates only in the lookup, or to decode
    /// an object of another kind.
    ///
    /// # Errors
    ///
    /// - [`existing_object::Error::Find`] with the error of the lookup if it fails.
    /// - [`existing_object::Error::NotFound`] with `id` if it names no object.
    /// - [`existing_object::Error::Decode`] with `id` and the error of decoding, if the object does not
    ///   decode as its own kind or an allocation fails there.
    /// - [`existing_object::Error::ObjectKind`] with `id` and both kinds if the object is not a blob.
    #[tactic(auto, using(crate::proofs::OfKinds::names_blob))]
    final fn find_blob<'a>(
        &self,
        alloc: Global,
        id: oid<'_>,
        buffer: &'a mut Vec<u8>,
    ) -> Result<BlobRef<'a>, existing_object::Error>
        ensures empty { IsEmptyId object.Blob (borrowed_id id.entry)
            → IsOkAnd result (λ blob. blob.bytes.now ≡ []) }
        ensures found { ¬ IsEmptyId object.Blob (borrowed_id id.entry)
            → IfOk result (λ blob. NamesSuch (Self.objects self.now) (borrowed_id id.entry)
            object.Blob (λ hash content. blob.bytes.now ≡ content)) }
        ensures error { ¬ IsEmptyId object.Blob (borrowed_id id.entry)
            → IfErr result (IsFindObjectError (Self.objects self.now) (Self.may_fail self.now)
            object.Blob (borrowed_id id.entry)) }
    {
        if id.to_owned() == ObjectId::empty_blob(id.kind()) {
            return Ok(BlobRef::from_bytes(b""));
        }
        match decoded(self, alloc, id, buffer)? {
            ObjectRef::Blob(blob) => Ok(blob),
            other => Err(of_another_kind(id, other.kind(), Kind::Blob)),
        }
    }

    /// Looks up and decodes the tree that `id` names. Allocates its entries.
    ///
    /// The empty tree is found in every store, without a lookup.
    ///
    /// # Errors
    ///
    /// - [`existing_object::Error::Find`] with the error of the lookup if it fails.
    /// - [`existing_object::Error::NotFound`] with `id` if it names no object.
    /// - [`existing_object::Error::Decode`] with `id` and the error of decoding, if the object does not
    ///   decode as its own kind or an allocation fails there.
    /// - [`existing_object::Error::ObjectKind`] with `id` and both kinds if the object is not a tree.
    ///
    /// # Examples
    ///
    /// ```rust
    /// let mut buffer = Vec::new(alloc);
    /// let root = match store.find_tree(alloc, id.as_oid(), &mut buffer) {
    ///     Ok(tree) => tree.into_owned(alloc),
    ///     Err(error) => return Err(Error::FindExistingObject(error)),
    /// };
    /// ```
    final fn find_tree<'a>(
        &self,
        alloc: Global,
        id: oid<'_>,
        buffer: &'a mut Vec<u8>,
    ) -> Result<TreeRef<'a>, existing_object::Error>
        ensures empty { IsEmptyId object.Tree (borrowed_id id.entry)
            → IsOkAnd result (λ tree. tree_entries tree ≡ []) }
        ensures found { ¬ IsEmptyId object.Tree (borrowed_id id.entry)
            → IfOk result (λ tree. NamesSuch (Self.objects self.now) (borrowed_id id.entry)
            object.Tree (λ hash content. DecodesToTree hash content (tree_entries tree))) }
        ensures error { ¬ IsEmptyId object.Tree (borrowed_id id.entry)
            → IfErr result (IsFindObjectError (Self.objects self.now) (Self.may_fail self.now)
            object.Tree (borrowed_id id.entry)) }
    {
        if id.is_empty_tree() {
            return Ok(TreeRef::empty(alloc));
        }
        existing_tree(alloc, self, id, buffer)
    }

    /// Looks up and decodes the commit that `id` names. Allocates its parents from the second one on, and its
    /// extra headers.
    ///
    /// # Errors
    ///
    /// - [`existing_object::Error::Find`] with the error of the lookup if it fails.
    /// - [`existing_object::Error::NotFound`] with `id` if it names no object.
    /// - [`existing_object::Error::Decode`] with `id` and the error of decoding, if the object does not
    ///   decode as its own kind or an allocation fails there.
    /// - [`existing_object::Error::ObjectKind`] with `id` and both kinds if the object is not a commit.
    ///
    /// # Examples
    ///
    /// ```rust
    /// let mut buffer = Vec::new(alloc);
    /// let mut id = commit;
    /// for _ in 0..generations {
    ///     let commit = store.find_commit(alloc, id.as_oid(), &mut buffer)?;
    ///     match commit.parents().next() {
    ///         Some(parent) => id = parent,
    ///         None => return Ok(None),
    ///     }
    /// }
    /// Ok(Some(id))
    /// ```
    #[tactic(auto, using(crate::proofs::OfKinds::names_commit))]
    final fn find_commit<'a>(
        &self,
        alloc: Global,
        id: oid<'_>,
        buffer: &'a mut Vec<u8>,
    ) -> Result<CommitRef<'a>, existing_object::Error>
        ensures found { IfOk result (λ commit.
            NamesSuch (Self.objects self.now) (borrowed_id id.entry) object.Commit
            (λ hash content. DecodesToCommit hash content (commit_lines commit))) }
        ensures borrowed { IfOk result BorrowsOneLineValues }
        ensures has_ids { IfOk result (λ commit. HasIds (commit_lines commit)) }
        ensures error { IfErr result (IsFindObjectError (Self.objects self.now)
            (Self.may_fail self.now) object.Commit (borrowed_id id.entry)) }
    {
        match decoded(self, alloc, id, buffer)? {
            ObjectRef::Commit(commit) => Ok(commit),
            other => Err(of_another_kind(id, other.kind(), Kind::Commit)),
        }
    }

    /// Looks up and decodes the tag that `id` names.
    ///
    /// Allocates only in the lookup, or to decode an object of another kind.
    ///
    /// # Errors
    ///
    /// - [`existing_object::Error::Find`] with the error of the lookup if it fails.
    /// - [`existing_object::Error::NotFound`] with `id` if it names no object.
    /// - [`existing_object::Error::Decode`] with `id` and the error of decoding, if the object does not
    ///   decode as its own kind or an allocation fails there.
    /// - [`existing_object::Error::ObjectKind`] with `id` and both kinds if the object is not a tag.
    #[tactic(auto, using(crate::proofs::OfKinds::names_tag))]
    final fn find_tag<'a>(
        &self,
        alloc: Global,
        id: oid<'_>,
        buffer: &'a mut Vec<u8>,
    ) -> Result<TagRef<'a>, existing_object::Error>
        ensures found { IfOk result (λ tag.
            NamesSuch (Self.objects self.now) (borrowed_id id.entry) object.Tag
            (λ hash content. DecodesToTag hash content (tag_lines tag))) }
        ensures has_id { IfOk result (λ tag. IsIdHex (tag_lines tag).target) }
        ensures error { IfErr result (IsFindObjectError (Self.objects self.now)
            (Self.may_fail self.now) object.Tag (borrowed_id id.entry)) }
    {
        match decoded(self, alloc, id, buffer)? {
            ObjectRef::Tag(tag) => Ok(tag),
            other => Err(of_another_kind(id, other.kind(), Kind::Tag)),
        }
    }

    /// Looks up the commit that `id` names, and returns an iterator over its tokens.
    ///
    /// Decodes nothing yet, and allocates only in the lookup.
    ///
    /// # Errors
    ///
    /// - [`existing_iter::Error::Find`] with the error of the lookup if it fails.
    /// - [`existing_iter::Error::NotFound`] with `id` if it names no object.
    /// - [`existing_iter::Error::ObjectKind`] with `id` and both kinds if the object is not a commit.
    final fn find_commit_iter<'a>(
        &self,
        alloc: Global,
        id: oid<'_>,
        buffer: &'a mut Vec<u8>,
    ) -> Result<CommitRefIter<'a>, existing_iter::Error>
        ensures found { IfOk result (λ reader.
            NamesSuch (Self.objects self.now) (borrowed_id id.entry) object.Commit
            (λ hash content. IsAtStartOfCommit hash content reader)) }
        ensures error { IfErr result (IsReaderError (Self.objects self.now)
            (Self.may_fail self.now) object.Commit (borrowed_id id.entry)) }
    {
        let it = undecoded(self, id, buffer)?;
        match it.try_into_commit_iter(alloc) {
            Some(reader) => Ok(reader),
            None => Err(no_reader(id, it.kind, Kind::Commit)),
        }
    }

    /// Looks up the tree that `id` names, and returns an iterator over its entries.
    ///
    /// Decodes nothing yet, and allocates only in the lookup.
    ///
    /// # Errors
    ///
    /// - [`existing_iter::Error::Find`] with the error of the lookup if it fails.
    /// - [`existing_iter::Error::NotFound`] with `id` if it names no object.
    /// - [`existing_iter::Error::ObjectKind`] with `id` and both kinds if the object is not a tree.
    ///
    /// # Examples
    ///
    /// ```rust
    /// let (mut bytes, mut buffer) = (Vec::new(alloc), Vec::new(alloc));
    /// let tree = store.find_tree_iter(tree.as_oid(), &mut bytes)?;
    /// Ok(tree.lookup_entry_by_path(alloc, store, &mut buffer, path)?)
    /// ```
    final fn find_tree_iter<'a>(
        &self,
        id: oid<'_>,
        buffer: &'a mut Vec<u8>,
    ) -> Result<TreeRefIter<'a>, existing_iter::Error>
        ensures found { IfOk result (λ reader.
            NamesSuch (Self.objects self.now) (borrowed_id id.entry) object.Tree
            (λ hash content. IsAtEntry hash content reader)) }
        ensures error { IfErr result (IsReaderError (Self.objects self.now)
            (Self.may_fail self.now) object.Tree (borrowed_id id.entry)) }
    {
        let it = undecoded(self, id, buffer)?;
        match it.try_into_tree_iter() {
            Some(reader) => Ok(reader),
            None => Err(no_reader(id, it.kind, Kind::Tree)),
        }
    }

    /// Looks up the tag that `id` names, and returns an iterator over its tokens.
    ///
    /// Decodes nothing yet, and allocates only in the lookup.
    ///
    /// # Errors
    ///
    /// - [`existing_iter::Error::Find`] with the error of the lookup if it fails.
    /// - [`existing_iter::Error::NotFound`] with `id` if it names no object.
    /// - [`existing_iter::Error::ObjectKind`] with `id` and both kinds if the object is not a tag.
    final fn find_tag_iter<'a>(
        &self,
        id: oid<'_>,
        buffer: &'a mut Vec<u8>,
    ) -> Result<TagRefIter<'a>, existing_iter::Error>
        ensures found { IfOk result (λ reader.
            NamesSuch (Self.objects self.now) (borrowed_id id.entry) object.Tag
            (λ hash content. IsAtStartOfTag hash content reader)) }
        ensures error { IfErr result (IsReaderError (Self.objects self.now)
            (Self.may_fail self.now) object.Tag (borrowed_id id.entry)) }
    {
        let it = undecoded(self, id, buffer)?;
        match it.try_into_tag_iter() {
            Some(reader) => Ok(reader),
            None => Err(no_reader(id, it.kind, Kind::Tag)),
        }
    }
}

impl<T: Find> FindExt for T {}

/// Looks up the object that `id` names, and decodes it as its own kind.
fn decoded<'a, S: Find>(
    store: &S,
    alloc: Global,
    id: oid<'_>,
    buffer: &'a mut Vec<u8>,
) -> Result<ObjectRef<'a>, existing_object::Error>
    ensures found { IfOk result (NamesEncoding (S.objects store.now) (borrowed_id id.entry)) }
    ensures borrowed { IfOk result BorrowsHeaderLines }
    ensures has_ids { IfOk result HasObjectIds }
    ensures error { IfErr result (IsDecodingLookupError (S.objects store.now) (S.may_fail store.now)
        (borrowed_id id.entry)) }
{
    let oid = id.to_owned();
    let Some(it) = store.try_find(id, buffer)? else {
        return Err(existing_object::Error::NotFound { oid });
    };
    match it.decode(alloc) {
        Ok(object) => Ok(object),
        Err(source) => Err(existing_object::Error::Decode { oid, source }),
    }
}

/// Looks up the object that `id` names, without decoding it.
fn undecoded<'a, S: Find>(
    store: &S,
    id: oid<'_>,
    buffer: &'a mut Vec<u8>,
) -> Result<Data<'a>, existing_iter::Error>
    ensures found { IfOk result (λ it. Names (S.objects store.now) (borrowed_id id.entry)
        (stored it)) }
    ensures error { IfErr result (IsContentLookupError (S.objects store.now) (S.may_fail store.now)
        (borrowed_id id.entry)) }
{
    match store.try_find(id, buffer)? {
        Some(it) => Ok(it),
        None => Err(existing_iter::Error::NotFound { oid: id.to_owned() }),
    }
}

/// Returns the error for a decoded object of another kind.
fn of_another_kind(id: oid<'_>, actual: Kind, expected: Kind) -> existing_object::Error
    ensures { result ≡ decoded.ObjectKind (borrowed_id id.entry) actual expected }
{
    existing_object::Error::ObjectKind {
        oid: id.to_owned(),
        actual,
        expected,
    }
}

/// Returns the error for an undecoded object of another kind.
fn no_reader(id: oid<'_>, actual: Kind, expected: Kind) -> existing_iter::Error
    ensures { result ≡ iter_error.ObjectKind (borrowed_id id.entry) actual expected }
{
    existing_iter::Error::ObjectKind {
        oid: id.to_owned(),
        actual,
        expected,
    }
}
