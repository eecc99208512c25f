//! Decoding of entire commits (gitdatamodel, "commits").
ghost use Rattle.std.specs.Prelude.{◌≡◌, ◌≤◌, [], IfErr, IfOk, OnOk};
ghost use Rattle.gixobj_commit.specs.CommitViews.{BorrowsOneLineValues, commit_lines};
ghost use Rattle.gixobj_commit.specs.CommitWriting.{HasIds};
ghost use Rattle.gixobj_hash.specs.declared.decode.Error.TheVariants.{OutOfMemory};
ghost use Rattle.gixobj_grammar.specs.Commit.{DecodesToCommit, IsCommitDecodeError};
ghost use Rattle.gixobj_grammar.specs.CommitBuilding.{Allocates, gather, empty_commit};
ghost use Rattle.gixobj_grammar.specs.Lines.{IsParsedLine, line_view};

use super::CommitRef;
use bstr::BStr;
use gixobj_grammar::lines::{Line, State, decode_line};
use gixobj_hash::decode::Error;
use gixobj_hash::hash::Kind;
use smallvec::SmallVec;
use std::alloc::Global;

impl<'a> CommitRef<'a> {
    /// Decodes a commit from its entire encoding, with ids of `hash_kind` (gitdatamodel, "commits").
    ///
    /// The lines are `tree`, any number of `parent`, `author`, `committer`, optionally `encoding`, and extra
    /// headers. An empty line and the message follow. In the line of an actor its time must be last.
    ///
    /// Header values of one line are borrowed. Allocates for parents after the first, for extra headers and
    /// for their values of several lines.
    ///
    /// # Errors
    ///
    /// - [`Error::Malformed`] if the bytes are not the encoding of a commit.
    /// - [`Error::OutOfMemory`] if an allocation fails for a parent after the first or for an extra header.
    ///   The lines after it may be malformed.
    ///
    /// # Examples
    ///
    /// ```rust
    /// fn tree_of(alloc: Global, bytes: &[u8]) -> Result<ObjectId, decode::Error> {
    ///     let commit = CommitRef::from_bytes(alloc, bytes, HashKind::Sha1)?;
    ///     Ok(commit.tree())
    /// }
    /// ```
    pub fn from_bytes(
        alloc: Global,
        bytes: &'a [u8],
        hash_kind: Kind,
    ) -> Result<CommitRef<'a>, Error>
        ensures found { IfOk result (λ commit.
            DecodesToCommit hash_kind bytes.now (commit_lines commit)) }
        ensures has_ids { IfOk result (λ commit. HasIds (commit_lines commit)) }
        ensures borrowed { IfOk result BorrowsOneLineValues }
        ensures error { IfErr result (IsCommitDecodeError hash_kind bytes.now) }
    {
        let mut commit = CommitRef::without_lines(alloc);
        let mut state = State::Tree;
        let mut rest = bytes;
        while !matches!(state, State::End) {
            let (line, following, after) = decode_line(alloc, state, hash_kind, rest)?;
            commit.add_line(line)?;
            state = following;
            rest = after;
        }
        Ok(commit)
    }

    /// Returns a commit without any line.
    fn without_lines(alloc: Global) -> CommitRef<'a>
        ensures lines { commit_lines result ≡ empty_commit }
        ensures no_headers { result.extra_headers.items ≡ [] }
        ensures has_capacity { 1 ≤ result.parents.capacity }
    {
        let nothing = BStr::new(b"");
        CommitRef {
            tree: nothing,
            parents: SmallVec::new(alloc),
            author: nothing,
            committer: nothing,
            encoding: None,
            message: nothing,
            extra_headers: Vec::new(alloc),
        }
    }

    /// Sets or appends the field of a decoded line. A second parent and an extra header allocate.
    fn add_line(&mut self, line: Line<'a>) -> Result<(), Error>
        requires { 1 ≤ self.now.parents.capacity }
        ensures appended { OnOk result (commit_lines self.new
            ≡ gather (commit_lines self.old) (line_view line.entry)) }
        ensures has_capacity { OnOk result (1 ≤ self.new.parents.capacity) }
        ensures borrowed { OnOk result (BorrowsOneLineValues self.old → IsParsedLine line.entry
            → BorrowsOneLineValues self.new) }
        ensures error { IfErr result (λ e. (e ≡ OutOfMemory)
            × Allocates (commit_lines self.old) (line_view line.entry)) }
    {
        match line {
            Line::Tree(hex) => self.tree = hex,
            Line::Parent(hex) => self.parents.push(hex)?,
            Line::Author(content, _) => self.author = content,
            Line::Committer(content, _) => self.committer = content,
            Line::Encoding(encoding) => self.encoding = Some(encoding),
            Line::ExtraHeader(header) => self.extra_headers.push(header)?,
            Line::Message(message) => self.message = message,
        }
        Ok(())
    }
}
