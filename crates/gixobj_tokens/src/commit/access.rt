//! Searches of a token iterator for the tree, the actors and the message of a commit.
ghost use Rattle.std.specs.Prelude.{IfErr, IfOk};
ghost use Rattle.bstr.specs.BStr.{bstr_bytes};
ghost use Rattle.gixobj_actor.specs.Actor.{actor_view};
ghost use Rattle.gixobj_tokens.specs.CommitTokenSteps.{NextIdOfCommit};
ghost use Rattle.gixobj_tokens.specs.TokenSearch.{FindsAuthor, FindsCommitter, FindsMessage, EndsSearch};
ghost use Rattle.gixobj_tokens.specs.TokenSearch.{optional_error, required_error, IsAuthorToken, IsCommitterToken};
ghost use Rattle.gixobj_tokens.specs.TokenSearch.{IsMessageToken};

use super::CommitRefIter;
use bstr::BStr;
use gixobj_actor::actor::SignatureRef;
use gixobj_hash::decode::Error;
use gixobj_hash::hash::ObjectId;

/// Access
impl<'a> CommitRefIter<'a> {
    /// Consumes the next token and returns its id, which is the tree's at the start.
    ///
    /// At the start this allocates nothing.
    ///
    /// # Errors
    ///
    /// - [`Error::Malformed`] if the next token is malformed, is missing or has no id.
    /// - [`Error::OutOfMemory`] if the next token is a header of several lines, and its value can't be
    ///   allocated.
    ///
    /// # Examples
    ///
    /// ```rust
    /// pub fn tree_of(alloc: Global, bytes: &[u8]) -> Result<ObjectId, decode::Error> {
    ///     CommitRefIter::from_bytes(alloc, bytes, HashKind::Sha1).tree_id()
    /// }
    /// ```
    pub fn tree_id(&mut self) -> Result<ObjectId, Error>
        ensures { NextIdOfCommit self.old result self.new }
    {
        match self.next() {
            Some(Ok(token)) => match token.try_into_id() {
                Some(id) => Ok(id),
                None => Err(Error::Malformed),
            },
            Some(Err(error)) => Err(error),
            None => Err(Error::Malformed),
        }
    }

    /// Returns who made the change, and when: the first remaining author, untrimmed.
    ///
    /// Allocates the values of headers of several lines that it consumes. In a commit they follow the author.
    ///
    /// # Errors
    ///
    /// - [`Error::Malformed`] if a malformed token or the end comes before an author.
    /// - [`Error::OutOfMemory`] if such a value can't be allocated.
    #[tactic(auto, using(crate::proofs::CommitRuns::searches_nil, crate::proofs::CommitRuns::ends_search_at_first))]
    pub fn author(self) -> Result<SignatureRef<'a>, Error>
        ensures found { IfOk result (λ it. FindsAuthor self.entry (actor_view it)) }
        ensures error { IfErr result (λ error. EndsSearch IsAuthorToken self.entry
            (required_error error)) }
    {
        for item in self {
            let token = item?;
            if let Some(signature) = token.as_author() {
                return Ok(signature);
            }
        }
        Err(Error::Malformed)
    }

    /// Returns who made the commit, and when: the first remaining committer, untrimmed.
    ///
    /// Allocates the values of headers of several lines that it consumes. In a commit they follow the
    /// committer.
    ///
    /// # Errors
    ///
    /// - [`Error::Malformed`] if a malformed token or the end comes before a committer.
    /// - [`Error::OutOfMemory`] if such a value can't be allocated.
    #[tactic(auto, using(crate::proofs::CommitRuns::searches_nil, crate::proofs::CommitRuns::ends_search_at_first))]
    pub fn committer(self) -> Result<SignatureRef<'a>, Error>
        ensures found { IfOk result (λ it. FindsCommitter self.entry (actor_view it)) }
        ensures error { IfErr result (λ error. EndsSearch IsCommitterToken self.entry
            (required_error error)) }
    {
        for item in self {
            let token = item?;
            if let Some(signature) = token.as_committer() {
                return Ok(signature);
            }
        }
        Err(Error::Malformed)
    }

    /// Returns the message: all bytes after the empty line, or no bytes if the end comes before it.
    ///
    /// Allocates the values of headers of several lines before the message.
    ///
    /// # Errors
    ///
    /// - [`Error::Malformed`] if a malformed token comes before the message.
    /// - [`Error::OutOfMemory`] if such a value can't be allocated.
    #[tactic(auto, using(crate::proofs::CommitRuns::searches_nil, crate::proofs::CommitRuns::ends_search_at_first))]
    pub fn message(self) -> Result<BStr<'a>, Error>
        ensures found { IfOk result (λ it. FindsMessage self.entry (bstr_bytes it)) }
        ensures error { IfErr result (λ error. EndsSearch IsMessageToken self.entry
            (optional_error error)) }
    {
        for answer in self {
            let token = answer?;
            if let Some(message) = token.as_message() {
                return Ok(message);
            }
        }
        Ok(BStr::new(b""))
    }
}
