//! Borrowed and owned commits, their fields and conversions (gitdatamodel, "commits").
ghost use Rattle.std.specs.Prelude.{◌≡◌, All, IfErr, IfOk, map};
ghost use Rattle.std.specs.List.{AllZip};
ghost use Rattle.bstr.specs.BStr.{bstr_bytes};
ghost use Rattle.gixobj_actor.specs.Actor.{IsActor, IsNoActor, IsTrimmedActor};
ghost use Rattle.gixobj_hash.specs.Hash.{IsIdHex, DecodesToId, id_kind};
ghost use Rattle.gixobj_parse.specs.HeaderReading.{owned_header_of};
ghost use Rattle.gixobj_hash.specs.declared.decode.Error.TheVariants.{Malformed};
ghost use Rattle.gixobj_grammar.specs.RemainingParents.{remaining_parents};
ghost use Rattle.gixobj_commit.specs.CommitOwned.{IsOwnedFormOfCommit, IsTimeOfLine, IsIntoOwnedCommitError};
ghost use Rattle.gixobj_commit.specs.CommitViews.{commit_lines};
ghost use Rattle.gixobj_commit.specs.CommitWriting.{HasIds};
ghost use Rattle.gixobj_commit.specs.ExtraHeaders.{hash_kind_of, iterator_of};
ghost use Rattle.gixobj_grammar.specs.RemainingHeaders.{remaining_headers, remaining_owned_headers};
ghost use Rattle.gixobj_hash.specs.Hash.Hex.{IsIdHexOfKind};

mod decode;
mod message;
mod owned;
mod sign;
mod write;

pub use crate::{
    BorrowedHeaders, ExtraHeaders, FindAll, Mergetags, OwnedHeaders, Parents, SIGNATURE_FIELD_NAME,
    SIGNATURE_FIELD_NAME_SHA256, signature_field_name,
};
use bstr::{BStr, BString};
use gixobj_actor::actor::{Signature, SignatureRef};
use gixobj_actor::date::Time;
use gixobj_actor::parse::{actor_of_line, trimmed_actor};
use gixobj_hash::decode::Error;
use gixobj_hash::hash::ObjectId;
use gixobj_hash::parse::id_of_hex;
use smallvec::SmallVec;
use std::alloc::Global;
use std::borrow::CowSlice;

/// A commit that borrows its fields from its encoding. [`CommitRef::from_bytes`] decodes one.
#[derive(Clone, Debug, Drop, PartialEq, Eq, PartialOrd, Ord, Hash)]
pub struct CommitRef<'a> {
    /// The hex digits of the tree's id. [`CommitRef::tree`] decodes them.
    pub tree: BStr<'a>,
    /// The hex digits of each parent's id, none for a root commit. [`CommitRef::parents`] decodes them.
    pub parents: SmallVec<BStr<'a>, 1>,
    /// The value of the `author` line, white space included. [`CommitRef::author`] decodes it.
    pub author: BStr<'a>,
    /// The value of the `committer` line, white space included. [`CommitRef::committer`] decodes it.
    pub committer: BStr<'a>,
    /// The name of the message's character encoding, UTF-8 if absent (git-commit, "DISCUSSION").
    pub encoding: Option<BStr<'a>>,
    /// The message in that character encoding, as unchanged bytes.
    pub message: BStr<'a>,
    /// The other headers, as pairs of name and value, in the order of the encoding. A decoded value of one
    /// line has no newline; one of several lines has a newline after each.
    pub extra_headers: Vec<(BStr<'a>, CowSlice<'a, u8>)>,
}

/// An owned commit, to be changed, encoded or signed. [`CommitRef::into_owned`] copies a decoded one.
#[derive(Clone, Debug, Drop, PartialEq, Eq, PartialOrd, Ord, Hash)]
pub struct Commit {
    /// The id of the tree.
    pub tree: ObjectId,
    /// The ids of the parents, none for a root commit.
    pub parents: SmallVec<ObjectId, 1>,
    /// Who made the change, and when.
    pub author: Signature,
    /// Who made the commit, and when.
    pub committer: Signature,
    /// The name of the message's character encoding, UTF-8 if absent (git-commit, "DISCUSSION").
    pub encoding: Option<BString>,
    /// The message in that character encoding, as unchanged bytes.
    pub message: BString,
    /// The other headers, as pairs of name and value, in the order in which they are written. A writer
    /// doesn't validate their names.
    pub extra_headers: Vec<(BString, BString)>,
}

/// Access
impl<'a> CommitRef<'a> {
    /// Returns the id of the tree. Allocates nothing.
    ///
    /// The `tree` field must be a hex id, as [`CommitRef::from_bytes`] ensures.
    pub fn tree(&self) -> ObjectId
        requires { IsIdHex (commit_lines self.now).tree }
        ensures { DecodesToId (commit_lines self.now).tree result }
    {
        id_of_hex(self.tree)
    }

    /// Returns an iterator over the ids of the parents, in order. Allocates nothing.
    ///
    /// Each of the `parents` must be a hex id, as [`CommitRef::from_bytes`] ensures.
    ///
    /// # Examples
    ///
    /// ```rust
    /// let commit = store.find_commit(alloc, id.as_oid(), &mut buffer)?;
    /// match commit.parents().next() {
    ///     Some(parent) => id = parent,
    ///     None => return Ok(None),
    /// }
    /// ```
    #[tactic(auto, using(gixobj_hash::proofs::HexIds::all_zip_decodes_to_id))]
    pub fn parents(&self) -> Parents<'_>
        requires { All IsIdHex (commit_lines self.now).parents }
        ensures { AllZip DecodesToId (commit_lines self.now).parents (remaining_parents result) }
    {
        Parents::new(self.parents.as_slice())
    }

    /// Returns the headers after the author, the committer and the encoding. Allocates nothing.
    ///
    /// The `tree` field determines the kind of ids. It must be a hex id, as [`CommitRef::from_bytes`]
    /// ensures.
    ///
    /// # Examples
    ///
    /// ```rust
    /// let commit = CommitRef::from_bytes(alloc, bytes, HashKind::Sha1)?;
    /// let is_signed = commit.extra_headers().pgp_signature().is_some();
    /// let merges_a_tag = commit.extra_headers().find("mergetag").is_some();
    /// Ok((is_signed, merges_a_tag))
    /// ```
    pub fn extra_headers(&self) -> ExtraHeaders<BorrowedHeaders<'_, 'a>>
        requires { IsIdHex (commit_lines self.now).tree }
        ensures headers { remaining_headers (iterator_of result)
            ≡ (commit_lines self.now).extra_headers }
        ensures hash_kind { IsIdHexOfKind (hash_kind_of result) (commit_lines self.now).tree }
    {
        let hash_kind = self.tree().kind();
        ExtraHeaders::new(BorrowedHeaders::new(&self.extra_headers), hash_kind)
    }

    /// Decodes the author, with white space trimmed from name, email and time. Allocates nothing.
    ///
    /// # Errors
    ///
    /// [`Error::Malformed`] if the `author` line is malformed, or if bytes follow the time of its actor. No
    /// commit that [`CommitRef::from_bytes`] returns has such a line.
    ///
    /// # Examples
    ///
    /// ```rust
    /// Ok(LogLine {
    ///     tree: commit.tree(),
    ///     parents: commit.parents().collect(alloc)?,
    ///     author: commit.author()?.name,
    ///     authored: commit.author()?.time().map(|time| time.seconds),
    ///     committed: commit.time()?.seconds,
    ///     title: commit.message().title,
    /// })
    /// ```
    pub fn author(&self) -> Result<SignatureRef<'a>, Error>
        ensures found { IfOk result (IsTrimmedActor (commit_lines self.now).author) }
        ensures error { IfErr result (λ e. (e ≡ Malformed)
            × IsNoActor (commit_lines self.now).author) }
    {
        trimmed_actor(self.author)
    }

    /// Decodes the committer, with white space trimmed from name, email and time. Allocates nothing.
    ///
    /// # Errors
    ///
    /// [`Error::Malformed`] if the `committer` line is malformed, or if bytes follow the time of its actor.
    /// No commit that [`CommitRef::from_bytes`] returns has such a line.
    pub fn committer(&self) -> Result<SignatureRef<'a>, Error>
        ensures found { IfOk result (IsTrimmedActor (commit_lines self.now).committer) }
        ensures error { IfErr result (λ e. (e ≡ Malformed)
            × IsNoActor (commit_lines self.now).committer) }
    {
        trimmed_actor(self.committer)
    }

    /// Decodes when the commit was made, from the untrimmed `committer` line. Allocates nothing.
    ///
    /// The time is the seconds since the epoch, and the offset from UTC in seconds. A malformed time decodes
    /// as the epoch in UTC.
    ///
    /// # Errors
    ///
    /// [`Error::Malformed`] if the `committer` line is malformed, or if bytes follow the time of its actor.
    /// No commit that [`CommitRef::from_bytes`] returns has such a line.
    ///
    /// # Examples
    ///
    /// ```rust
    /// Ok(LogLine {
    ///     tree: commit.tree(),
    ///     parents: commit.parents().collect(alloc)?,
    ///     author: commit.author()?.name,
    ///     authored: commit.author()?.time().map(|time| time.seconds),
    ///     committed: commit.time()?.seconds,
    ///     title: commit.message().title,
    /// })
    /// ```
    pub fn time(&self) -> Result<Time, Error>
        ensures found { IfOk result (IsTimeOfLine (commit_lines self.now).committer) }
        ensures error { IfErr result (λ e. (e ≡ Malformed)
            × IsNoActor (commit_lines self.now).committer) }
    {
        let actor = actor_of_line(self.committer)?;
        match actor.time() {
            Some(time) => Ok(time),
            None => Ok(Time::default()),
        }
    }
}

/// Conversion
impl CommitRef<'_> {
    /// Copies the commit into an owned one, and decodes its ids, actors and times. Allocates the copy.
    ///
    /// The actors keep their white space. A malformed time becomes the epoch in UTC. The fields `tree` and
    /// `parents` must be hex ids, as [`CommitRef::from_bytes`] ensures.
    ///
    /// # Errors
    ///
    /// - [`Error::Malformed`] if the `author` or the `committer` line is malformed, or if bytes follow the
    ///   time of its actor. No commit that [`CommitRef::from_bytes`] returns has such a line.
    /// - [`Error::OutOfMemory`] otherwise, if an allocation fails.
    ///
    /// # Examples
    ///
    /// ```rust
    /// pub fn reworded(alloc: Global, bytes: &[u8], message: BString) -> Result<Commit, decode::Error> {
    ///     let mut commit = CommitRef::from_bytes(alloc, bytes, HashKind::Sha1)?.into_owned(alloc)?;
    ///     commit.message = message;
    ///     commit.extra_headers.clear();
    ///     Ok(commit)
    /// }
    /// ```
    pub fn into_owned(self, alloc: Global) -> Result<Commit, Error>
        requires { HasIds (commit_lines self) }
        ensures owned { IfOk result (IsOwnedFormOfCommit (commit_lines self.entry)) }
        ensures error { IfErr result (IsIntoOwnedCommitError (commit_lines self.entry)) }
    {
        owned_copy(alloc, &self)
    }

    /// Copies the commit into an owned one, by [`CommitRef::into_owned`]. Allocates the copy.
    ///
    /// The fields `tree` and `parents` must be hex ids, as [`CommitRef::from_bytes`] ensures.
    ///
    /// # Errors
    ///
    /// - [`Error::Malformed`] if the `author` or the `committer` line is malformed, or if bytes follow the
    ///   time of its actor.
    /// - [`Error::OutOfMemory`] otherwise, if an allocation fails.
    pub fn to_owned(self, alloc: Global) -> Result<Commit, Error>
        requires { HasIds (commit_lines self) }
        ensures owned { IfOk result (IsOwnedFormOfCommit (commit_lines self.entry)) }
        ensures error { IfErr result (IsIntoOwnedCommitError (commit_lines self.entry)) }
    {
        self.into_owned(alloc)
    }
}

/// Access
impl Commit {
    /// Returns the headers after the author, the committer and the encoding. Allocates nothing.
    pub fn extra_headers(&self) -> ExtraHeaders<OwnedHeaders<'_>>
        ensures headers { remaining_owned_headers (iterator_of result)
            ≡ map owned_header_of self.now.extra_headers.items }
        ensures hash_kind { hash_kind_of result ≡ id_kind self.now.tree }
    {
        ExtraHeaders::new(OwnedHeaders::new(&self.extra_headers), self.tree.kind())
    }
}

/// Copies a borrowed commit into an owned one, by the rules of [`CommitRef::into_owned`]. Allocates the copy.
///
/// The fields `tree` and `parents` must be hex ids, as [`CommitRef::from_bytes`] ensures.
///
/// # Errors
///
/// - [`Error::Malformed`] if the `author` or the `committer` line is malformed, or if bytes follow the time
///   of its actor.
/// - [`Error::OutOfMemory`] otherwise, if an allocation fails.
pub fn owned_copy(alloc: Global, commit: &CommitRef<'_>) -> Result<Commit, Error>
    requires { HasIds (commit_lines commit.now) }
    ensures owned { IfOk result (IsOwnedFormOfCommit (commit_lines commit.now)) }
    ensures error { IfErr result (IsIntoOwnedCommitError (commit_lines commit.now)) }
{
    let author = actor_of_line(commit.author)?;
    let committer = actor_of_line(commit.committer)?;
    Ok(owned::commit(alloc, commit, author, committer)?)
}
