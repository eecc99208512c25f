//! The parts of tokens that searches look for.
ghost use Rattle.std.specs.Prelude.{◌≡◌, MatchOption};
ghost use Rattle.bstr.specs.BStr.{bstr_bytes};
ghost use Rattle.gixobj_actor.specs.Actor.{actor_view};
ghost use Rattle.gixobj_tokens.specs.CommitTokens.{author_token, committer_token, message_token, parent_token};
ghost use Rattle.gixobj_tokens.specs.CommitTokens.{commit_token_view};
ghost use Rattle.gixobj_tokens.specs.TokenSearch.{IsActorToken, IsActorTokenOf, IsAuthorToken, IsCommitterToken};
ghost use Rattle.gixobj_tokens.specs.TokenSearch.{IsMessageToken, IsParentToken};

use super::Token;
use bstr::BStr;
use gixobj_actor::actor::SignatureRef;
use gixobj_hash::hash::ObjectId;

impl<'a> Token<'a> {
    /// Returns the id of a parent token, or `None` for another token.
    pub(super) fn as_parent(&self) -> Option<ObjectId>
        ensures { MatchOption result (¬ IsParentToken (commit_token_view self.now))
            (λ id. commit_token_view self.now ≡ parent_token id) }
    {
        match self {
            Token::Parent { id } => Some(*id),
            _ => None,
        }
    }

    /// Returns the actor of an author token, or `None` for another token.
    pub(super) fn as_author(&self) -> Option<SignatureRef<'a>>
        ensures { MatchOption result (¬ IsAuthorToken (commit_token_view self.now))
            (λ it. commit_token_view self.now ≡ author_token (actor_view it)) }
    {
        match self {
            Token::Author { signature } => Some(*signature),
            _ => None,
        }
    }

    /// Returns the actor of a committer token, or `None` for another token.
    pub(super) fn as_committer(&self) -> Option<SignatureRef<'a>>
        ensures { MatchOption result (¬ IsCommitterToken (commit_token_view self.now))
            (λ it. commit_token_view self.now ≡ committer_token (actor_view it)) }
    {
        match self {
            Token::Committer { signature } => Some(*signature),
            _ => None,
        }
    }

    /// Returns the actor of an author or committer token, or `None` for another token.
    pub(super) fn as_actor(&self) -> Option<SignatureRef<'a>>
        ensures { MatchOption result (¬ IsActorToken (commit_token_view self.now))
            (λ it. IsActorTokenOf (actor_view it) (commit_token_view self.now)) }
    {
        match self {
            Token::Author { signature } | Token::Committer { signature } => Some(*signature),
            _ => None,
        }
    }

    /// Returns the bytes of a message token, or `None` for another token.
    pub(super) fn as_message(&self) -> Option<BStr<'a>>
        ensures { MatchOption result (¬ IsMessageToken (commit_token_view self.now))
            (λ it. commit_token_view self.now ≡ message_token (bstr_bytes it)) }
    {
        match self {
            Token::Message(message) => Some(*message),
            _ => None,
        }
    }
}
