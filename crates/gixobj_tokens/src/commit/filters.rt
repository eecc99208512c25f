//! Iterators over the parents of a commit alone, or over its actors alone.
use super::CommitRefIter;
use gixobj_actor::actor::SignatureRef;
use gixobj_hash::hash::ObjectId;

/// An iterator over the ids of a commit's parents. [`CommitRefIter::parent_ids`] returns one.
#[derive(Clone, Copy, Drop)]
pub struct ParentIds<'a> {
    tokens: CommitRefIter<'a>,
}

/// An iterator over the author and the committer of a commit. [`CommitRefIter::signatures`] returns one.
#[derive(Clone, Copy, Drop)]
pub struct Signatures<'a> {
    tokens: CommitRefIter<'a>,
}

/// Access
impl<'a> CommitRefIter<'a> {
    ghost use Rattle.std.specs.Prelude.{◌≡◌};
    ghost use Rattle.gixobj_tokens.specs.TokenFilters.{actors_reader, parents_reader};

    /// Returns an iterator over the ids of the remaining parents. An error of a token ends it silently.
    ///
    /// Making the iterator allocates nothing. Its last step decodes the other tokens, and allocates the
    /// values of headers of several lines.
    pub fn parent_ids(self) -> ParentIds<'a>
        ensures { parents_reader result ≡ self.entry }
    {
        ParentIds { tokens: self }
    }

    /// Returns an iterator over the remaining actors, untrimmed: the author, then the committer.
    ///
    /// An error of a token ends it silently. Making the iterator allocates nothing. Its last step decodes the
    /// other tokens, and allocates the values of headers of several lines.
    pub fn signatures(self) -> Signatures<'a>
        ensures { actors_reader result ≡ self.entry }
    {
        Signatures { tokens: self }
    }
}

/// Yields the next parent, or `None` at the end of the tokens and at an error of a token.
impl<'a> Iterator for ParentIds<'a> {
    type Item = ObjectId;

    ghost use Rattle.gixobj_tokens.specs.TokenFilters.{NextParent, remaining_parent_id_count};

    ghost next_gives = { NextParent };

    ghost remaining = { remaining_parent_id_count };

    #[tactic(auto, using(crate::proofs::CommitRuns::searches_nil, crate::proofs::CommitRuns::reads_first_token_of_search))]
    fn next(&mut self) -> Option<ObjectId> {
        while let Some(item) = self.tokens.next() {
            let Ok(token) = item else {
                return None;
            };
            if let Some(id) = token.as_parent() {
                return Some(id);
            }
        }
        None
    }
}

/// Yields the next author or committer, or `None` at the end of the tokens and at an error of a token.
impl<'a> Iterator for Signatures<'a> {
    type Item = SignatureRef<'a>;

    ghost use Rattle.gixobj_tokens.specs.TokenFilters.{NextActor, remaining_actor_count};

    ghost next_gives = { NextActor };

    ghost remaining = { remaining_actor_count };

    #[tactic(auto, using(crate::proofs::CommitRuns::searches_nil, crate::proofs::CommitRuns::reads_first_token_of_search))]
    fn next(&mut self) -> Option<SignatureRef<'a>> {
        while let Some(item) = self.tokens.next() {
            let Ok(token) = item else {
                return None;
            };
            if let Some(signature) = token.as_actor() {
                return Some(signature);
            }
        }
        None
    }
}
