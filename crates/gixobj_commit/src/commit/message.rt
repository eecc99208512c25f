//! Titles, bodies, summaries and trailers of commit messages (git-commit, "DISCUSSION";
//! git-interpret-trailers, "DESCRIPTION").
ghost use Rattle.std.specs.Prelude.{◌≡◌, IfErr, IfOk, true};
ghost use Rattle.std.specs.Cow.{cow_slice_items};
ghost use Rattle.bstr.specs.BStr.{bstr_bytes};
ghost use Rattle.gixobj_commit.specs.CommitViews.{commit_lines};
ghost use Rattle.gixobj_text.specs.Filters.{all_of, filter_of};
ghost use Rattle.gixobj_text.specs.TrailerSteps.{is_owned, remaining_bytes};
ghost use Rattle.gixobj_text.specs.MessageTrailers.{HasTrailerBlock};
ghost use Rattle.gixobj_text.specs.SummaryPieces.{is_multiline};
ghost use Rattle.gixobj_text.specs.Titles.{SplitsTitle, summary_of};
ghost use Rattle.gixobj_text.specs.declared.commit.message.body.filters.Filter.TheVariants.{AssistedBy, Attributions};
ghost use Rattle.gixobj_text.specs.declared.commit.message.body.filters.Filter.TheVariants.{Authors, CoAuthoredBy};
ghost use Rattle.gixobj_text.specs.declared.commit.message.body.filters.Filter.TheVariants.{SignedOffBy};
ghost use Rattle.gixobj_hash.specs.Optional.{bytes_if_some};

use crate::commit::CommitRef;
use gixobj_hash::memory::OutOfMemory;
use gixobj_text::commit::MessageRef;
use gixobj_text::commit::message::body::{Filtered, Trailers};
use gixobj_text::commit::message::message_trailers;
use gixobj_text::commit::message::summary::summary;
use std::alloc::Global;
use std::borrow::CowSlice;

/// Messages
impl<'a> CommitRef<'a> {
    /// Splits the message into its title and its body (git-commit, "DISCUSSION"). Allocates nothing.
    ///
    /// # Examples
    ///
    /// ```rust
    /// Ok(LogLine {
    ///     tree: commit.tree(),
    ///     parents: commit.parents().collect(alloc)?,
    ///     author: commit.author()?.name,
    ///     authored: commit.author()?.time().map(|time| time.seconds),
    ///     committed: commit.time()?.seconds,
    ///     title: commit.message().title,
    /// })
    /// ```
    pub fn message(&self) -> MessageRef<'a>
        ensures { SplitsTitle (commit_lines self.now).message (bstr_bytes result.title)
            (bytes_if_some result.body) }
    {
        MessageRef::from_bytes(self.message.as_bytes())
    }

    /// Returns the first lines of the message on one line (git-log, "PRETTY FORMATS", `%s`).
    ///
    /// The message is trimmed. One line is borrowed and allocates nothing. Several lines are joined by spaces
    /// in an allocated value, up to the first empty line. [`MessageRef::summary`] does so for the title
    /// alone.
    ///
    /// # Errors
    ///
    /// [`OutOfMemory`] if the allocation for a message of several lines fails.
    pub fn message_summary(&self, alloc: Global) -> Result<CowSlice<'a, u8>, OutOfMemory>
        ensures value { IfOk result (λ it. cow_slice_items it
            ≡ summary_of (commit_lines self.now).message) }
        ensures owned { IfOk result (λ it. is_owned it
            ≡ is_multiline (commit_lines self.now).message) }
        ensures error { IfErr result (λ _. is_multiline (commit_lines self.now).message ≡ true) }
    {
        summary(alloc, self.message.as_bytes())
    }

    /// Returns an iterator over the trailers at the end of the message's body, in order
    /// (git-interpret-trailers, "DESCRIPTION").
    ///
    /// A message without body has none. Making the iterator allocates nothing. It allocates each value of
    /// several lines that it yields, and yields an error if that fails.
    pub fn message_trailers(&self, alloc: Global) -> Trailers<'a>
        ensures { HasTrailerBlock (commit_lines self.now).message (remaining_bytes result) }
    {
        message_trailers(alloc, self.message)
    }
}

/// Trailers of the message by token, with ASCII case ignored.
impl<'a> CommitRef<'a> {
    /// Returns an iterator over the `Signed-off-by` trailers of the message (git-commit, `--signoff`).
    ///
    /// Making the iterator allocates nothing. It allocates each value of several lines that it yields, and
    /// yields an error if that fails.
    ///
    /// # Examples
    ///
    /// ```rust
    /// let mut found = Vec::new(alloc);
    /// for trailer in commit.signed_off_by_trailers(alloc) {
    ///     found.push(trailer?)?;
    /// }
    /// Ok(found)
    /// ```
    pub fn signed_off_by_trailers(&self, alloc: Global) -> Filtered<'a>
        ensures trailers { HasTrailerBlock (commit_lines self.now).message
            (remaining_bytes (all_of result)) }
        ensures filter { filter_of result ≡ SignedOffBy }
    {
        self.message_trailers(alloc).signed_off_by()
    }

    /// Returns an iterator over the `Co-authored-by` trailers of the message.
    ///
    /// Making the iterator allocates nothing. It allocates each value of several lines that it yields, and
    /// yields an error if that fails.
    pub fn co_authored_by_trailers(&self, alloc: Global) -> Filtered<'a>
        ensures trailers { HasTrailerBlock (commit_lines self.now).message
            (remaining_bytes (all_of result)) }
        ensures filter { filter_of result ≡ CoAuthoredBy }
    {
        self.message_trailers(alloc).co_authored_by()
    }

    /// Returns an iterator over the `Assisted-by` trailers of the message.
    ///
    /// Making the iterator allocates nothing. It allocates each value of several lines that it yields, and
    /// yields an error if that fails.
    pub fn assisted_by_trailers(&self, alloc: Global) -> Filtered<'a>
        ensures trailers { HasTrailerBlock (commit_lines self.now).message
            (remaining_bytes (all_of result)) }
        ensures filter { filter_of result ≡ AssistedBy }
    {
        self.message_trailers(alloc).assisted_by()
    }

    /// Returns an iterator over the trailers of the change's authors: `Signed-off-by` and `Co-authored-by`.
    ///
    /// Making the iterator allocates nothing. It allocates each value of several lines that it yields, and
    /// yields an error if that fails.
    pub fn author_trailers(&self, alloc: Global) -> Filtered<'a>
        ensures trailers { HasTrailerBlock (commit_lines self.now).message
            (remaining_bytes (all_of result)) }
        ensures filter { filter_of result ≡ Authors }
    {
        self.message_trailers(alloc).authors()
    }

    /// Returns an iterator over the trailers of everyone who had a part in the change.
    ///
    /// Making the iterator allocates nothing. It allocates each value of several lines that it yields, and
    /// yields an error if that fails.
    ///
    /// Authors: `Signed-off-by`, `Co-authored-by`. Others: `Assisted-by`, `Acked-by`, `Reviewed-by`,
    /// `Tested-by`.
    pub fn attribution_trailers(&self, alloc: Global) -> Filtered<'a>
        ensures trailers { HasTrailerBlock (commit_lines self.now).message
            (remaining_bytes (all_of result)) }
        ensures filter { filter_of result ≡ Attributions }
    {
        self.message_trailers(alloc).attributions()
    }
}
