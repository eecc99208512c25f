//! The token iterator over commits (gitdatamodel, "commits").
ghost use Rattle.std.specs.Prelude.{◌≡◌, MatchOption, None, Some};
ghost use Rattle.gixobj_hash.specs.Hash.Borrowed.{borrowed_id};
ghost use Rattle.gixobj_grammar.specs.Lines.{HasHex, IsParsedLine, line_view};
ghost use Rattle.gixobj_tokens.specs.CommitTokens.{IsTokenOfLine, commit_token_view};
ghost use Rattle.gixobj_tokens.specs.CommitTokenSteps.{BorrowsValue, NextCommitToken, IsAtStartOfCommit};
ghost use Rattle.gixobj_tokens.specs.CommitTokenSteps.{commit_token_id, remaining_commit_token_count};

mod access;
mod filters;
mod parts;
mod signature;

use bstr::BStr;
pub use filters::{ParentIds, Signatures};
use gixobj_actor::actor::SignatureRef;
use gixobj_grammar::lines::{Line, State, decode_line};
use gixobj_hash::decode::Error;
use gixobj_hash::hash::{Kind, ObjectId, oid};
use gixobj_hash::parse::id_of_hex;
use std::alloc::Global;
use std::borrow::CowSlice;

/// An iterator over the tokens of a commit, each decoded when it is yielded. [`CommitRefIter::from_bytes`]
/// makes one.
#[derive(Clone, Copy, Drop)]
pub struct CommitRefIter<'a> {
    bytes: &'a [u8],
    state: State,
    hash_kind: Kind,
    alloc: Global,
}

/// Lifecycle
impl<'a> CommitRefIter<'a> {
    /// Returns an iterator over the tokens of a commit's encoding, with ids of `hash_kind`.
    ///
    /// Decodes nothing yet, and allocates nothing.
    ///
    /// # Examples
    ///
    /// ```rust
    /// for token in CommitRefIter::from_bytes(alloc, bytes, HashKind::Sha1) {
    ///     match token? {
    ///         Token::Parent { id } => return Ok(Some(id)),
    ///         Token::Author { .. } => break,
    ///         _ => {}
    ///     }
    /// }
    /// ```
    pub fn from_bytes(alloc: Global, bytes: &'a [u8], hash_kind: Kind) -> CommitRefIter<'a>
        ensures { IsAtStartOfCommit hash_kind bytes.now result }
    {
        CommitRefIter {
            bytes,
            state: State::Tree,
            hash_kind,
            alloc,
        }
    }
}

/// Yields the next token, or `None` if no bytes remain. After an error the iterator is at its end.
///
/// Bytes that end after a line yield no error, even without a message. Only the value of a header of several
/// lines is allocated.
///
/// # Errors
///
/// - [`Error::Malformed`] if the remaining bytes begin with no token that may come next.
/// - [`Error::OutOfMemory`] if the value of a header of several lines can't be allocated.
impl<'a> Iterator for CommitRefIter<'a> {
    type Item = Result<Token<'a>, Error>;

    ghost next_gives = { NextCommitToken };

    ghost remaining = { remaining_commit_token_count };

    fn next(&mut self) -> Option<Result<Token<'a>, Error>> {
        if self.bytes.is_empty() {
            return None;
        }
        match decode_line(self.alloc, self.state, self.hash_kind, self.bytes) {
            Ok((line, state, rest)) => {
                self.bytes = rest;
                self.state = state;
                Some(Ok(Token::of_line(line)))
            }
            Err(error) => {
                self.bytes = b"";
                Some(Err(error))
            }
        }
    }
}

/// A token of a commit, yielded by [`CommitRefIter`].
#[derive(Clone, Debug, Drop, PartialEq, Eq, PartialOrd, Ord, Hash)]
pub enum Token<'a> {
    /// The tree.
    Tree {
        /// The id of the tree.
        id: ObjectId,
    },
    /// A parent.
    Parent {
        /// The id of the parent.
        id: ObjectId,
    },
    /// Who made the change, and when.
    Author {
        /// The author, untrimmed.
        signature: SignatureRef<'a>,
    },
    /// Who made the commit, and when.
    Committer {
        /// The committer, untrimmed.
        signature: SignatureRef<'a>,
    },
    /// The name of the message's character encoding.
    Encoding(BStr<'a>),
    /// An extra header: its name and its value. A value of one line is borrowed.
    ExtraHeader((BStr<'a>, CowSlice<'a, u8>)),
    /// The message, as unchanged bytes.
    Message(BStr<'a>),
}

/// Lifecycle
impl<'a> Token<'a> {
    /// Converts a line into its token. Allocates nothing.
    #[tactic(auto, using(crate::specs::CommitTokens::yields_tree, crate::specs::CommitTokens::yields_parent, crate::specs::CommitTokens::yields_author, crate::specs::CommitTokens::yields_committer, crate::specs::CommitTokens::yields_encoding, crate::specs::CommitTokens::yields_header, crate::specs::CommitTokens::yields_message))]
    fn of_line(line: Line<'a>) -> Token<'a>
        requires parts { IsParsedLine line }
        requires ids { HasHex (line_view line) }
        ensures token { IsTokenOfLine (line_view line.entry) (commit_token_view result) }
        ensures borrowed { BorrowsValue result }
    {
        match line {
            Line::Tree(hex) => Token::Tree { id: id_of_hex(hex) },
            Line::Parent(hex) => Token::Parent { id: id_of_hex(hex) },
            Line::Author(_, signature) => Token::Author { signature },
            Line::Committer(_, signature) => Token::Committer { signature },
            Line::Encoding(encoding) => Token::Encoding(encoding),
            Line::ExtraHeader(header) => Token::ExtraHeader(header),
            Line::Message(message) => Token::Message(message),
        }
    }
}

/// Access
impl<'a> Token<'a> {
    /// Returns the id of a tree or parent token, borrowed, or `None` for another token. Allocates nothing.
    pub fn id(&self) -> Option<oid<'_>>
        ensures { MatchOption result (commit_token_id (commit_token_view self.now) ≡ None)
            (λ id. commit_token_id (commit_token_view self.now) ≡ Some (borrowed_id id)) }
    {
        match self {
            Token::Tree { id } | Token::Parent { id } => Some(id.as_oid()),
            _ => None,
        }
    }

    /// Returns the id of a tree or parent token, or `None` for another token. Allocates nothing.
    pub fn try_into_id(self) -> Option<ObjectId>
        ensures { result ≡ commit_token_id (commit_token_view self.entry) }
    {
        match &self {
            Token::Tree { id } | Token::Parent { id } => Some(*id),
            _ => None,
        }
    }
}
