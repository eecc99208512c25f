//! Laws on the token iterator over commits and the decoder of entire commits. Each function is empty, and its
//! contract is the law.
ghost use Rattle.std.specs.Prelude.{◌≡◌, ◌++◌, ◌∷◌, [], ℕ, Err, List, None, Result, Ok, Some};
ghost use Rattle.std.specs.List.{AllZip};
ghost use Rattle.std.proofs.lemmas.Iterator.{YieldsList};
ghost use Rattle.gixobj_actor.specs.Actor.{ActorView, IsActorOf};
ghost use Rattle.gixobj_hash.specs.Hash.{DecodesToId};
ghost use Rattle.gixobj_hash.specs.declared.decode.Error.{Error};
ghost use Rattle.gixobj_hash.specs.declared.decode.Error.TheVariants.{Malformed};
ghost use Rattle.gixobj_hash.specs.declared.hash.kind.Kind.{Kind};
ghost use Rattle.gixobj_hash.specs.declared.hash.object_id.ObjectId.{ObjectId};
ghost use Rattle.gixobj_grammar.specs.Commit.{CommitLines, DecodesToCommit};
ghost use Rattle.gixobj_hash.specs.Runs.{broken, complete};
ghost use Rattle.gixobj_tokens.specs.CommitRuns.{YieldsCommitTokens};
ghost use Rattle.gixobj_tokens.specs.CommitTokens.{CommitTokenView, commit_token_view};
ghost use Rattle.gixobj_tokens.specs.Readers.{AreTokensOfCommit, EndsInMessage};
ghost use Rattle.gixobj_tokens.specs.TokenFilters.{NextParent, parents_reader};
ghost use Rattle.gixobj_tokens.specs.CommitTokenSteps.{NextCommitToken, NextIdOfCommit, IsAtStartOfCommit};
ghost use Rattle.gixobj_tokens.specs.TokenSearch.{FindsAuthor, FindsCommitter, FindsMessage, EndsSearch};
ghost use Rattle.gixobj_tokens.specs.TokenSearch.{optional_error, required_error, HasConsumedCommitTokens};
ghost use Rattle.gixobj_tokens.specs.TokenSearch.{IsAuthorToken, IsCommitterToken, IsMessageToken};
ghost use Rattle.gixobj_tokens.specs.declared.commit.CommitRefIter.{CommitRefIter};
ghost use Rattle.gixobj_grammar.specs.declared.lines.State.TheVariants as state;
ghost use Rattle.gixobj_tokens.specs.declared.commit.Token.{Token};
ghost use Rattle.gixobj_tokens.specs.declared.commit.filters.ParentIds.{ParentIds};

/// The token iterator and the decoder of entire commits accept the same bytes.
///
/// The encoding of a commit yields the tokens of that commit, to the end. Bytes that yield tokens to the end,
/// with a message last, are the encoding of a commit with these tokens.
pub fn commit_readers_agree()
    ensures yields { (kind : Kind) (content : List ℕ) (commit : CommitLines)
        → DecodesToCommit kind content commit → (tokens : List CommitTokenView)
        × YieldsCommitTokens kind state.Tree content tokens complete × AreTokensOfCommit commit tokens
        × EndsInMessage tokens }
    ensures decodes { (kind : Kind) (content : List ℕ) (tokens : List CommitTokenView)
        → YieldsCommitTokens kind state.Tree content tokens complete → EndsInMessage tokens
        → (commit : CommitLines) × DecodesToCommit kind content commit × AreTokensOfCommit commit tokens }
{}

/// The tokens that an iterator has consumed are a prefix of the tokens of its bytes.
///
/// At its start it has consumed none, and each yielded token is consumed too. At its end the consumed tokens
/// are the complete run; at a malformed token they are the run up to there.
pub fn consumed_commit_tokens_are_prefix()
    ensures starts { (kind : Kind) (content : List ℕ) (reader : CommitRefIter)
        → IsAtStartOfCommit kind content reader → HasConsumedCommitTokens kind content [] reader }
    ensures continues { (kind : Kind) (content : List ℕ) (tokens : List CommitTokenView)
        (at after : CommitRefIter) (token : Token) → HasConsumedCommitTokens kind content tokens at
        → NextCommitToken at (Some (Ok token)) after
        → HasConsumedCommitTokens kind content (tokens ++ commit_token_view token ∷ []) after }
    ensures ends { (kind : Kind) (content : List ℕ) (tokens : List CommitTokenView)
        (at after : CommitRefIter) → HasConsumedCommitTokens kind content tokens at
        → NextCommitToken at None after → YieldsCommitTokens kind state.Tree content tokens complete }
    ensures stops { (kind : Kind) (content : List ℕ) (tokens : List CommitTokenView)
        (at after : CommitRefIter) → HasConsumedCommitTokens kind content tokens at
        → NextCommitToken at (Some (Err Malformed)) after
        → YieldsCommitTokens kind state.Tree content tokens broken }
{}

/// A token iterator at the start of a commit's encoding finds the commit's tree and parents.
pub fn id_search_complete()
    ensures tree { (kind : Kind) (content : List ℕ) (commit : CommitLines)
        (reader after : CommitRefIter) (result : Result ObjectId Error)
        → DecodesToCommit kind content commit → IsAtStartOfCommit kind content reader
        → NextIdOfCommit reader result after → (id : ObjectId) × (result ≡ Ok id)
        × DecodesToId commit.tree id }
    ensures parents { (kind : Kind) (content : List ℕ) (commit : CommitLines) (parents : ParentIds)
        → DecodesToCommit kind content commit → IsAtStartOfCommit kind content (parents_reader parents)
        → (ids : List ObjectId) × AllZip DecodesToId commit.parents ids
        × YieldsList NextParent (λ id. id) parents ids }
{}

/// A token iterator at the start of a commit's encoding finds the commit's author and committer.
///
/// Each search fails only if memory runs out.
pub fn actor_search_complete()
    ensures author { (kind : Kind) (content : List ℕ) (commit : CommitLines)
        (reader : CommitRefIter)
        (actor : ActorView) → DecodesToCommit kind content commit → IsAtStartOfCommit kind content reader
        → FindsAuthor reader actor → IsActorOf commit.author actor }
    ensures has_author { (kind : Kind) (content : List ℕ) (commit : CommitLines)
        (reader : CommitRefIter) → DecodesToCommit kind content commit
        → IsAtStartOfCommit kind content reader → ¬ EndsSearch IsAuthorToken reader (required_error Malformed) }
    ensures committer { (kind : Kind) (content : List ℕ) (commit : CommitLines)
        (reader : CommitRefIter) (actor : ActorView) → DecodesToCommit kind content commit
        → IsAtStartOfCommit kind content reader → FindsCommitter reader actor
        → IsActorOf commit.committer actor }
    ensures has_committer { (kind : Kind) (content : List ℕ) (commit : CommitLines)
        (reader : CommitRefIter) → DecodesToCommit kind content commit
        → IsAtStartOfCommit kind content reader → ¬ EndsSearch IsCommitterToken reader (required_error Malformed) }
{}

/// A token iterator at the start of a commit's encoding finds the commit's message.
///
/// The search fails only if memory runs out.
pub fn message_search_complete()
    ensures message { (kind : Kind) (content : List ℕ) (commit : CommitLines)
        (reader : CommitRefIter)
        (message : List ℕ) → DecodesToCommit kind content commit → IsAtStartOfCommit kind content reader
        → FindsMessage reader message → message ≡ commit.message }
    ensures has_message { (kind : Kind) (content : List ℕ) (commit : CommitLines)
        (reader : CommitRefIter) → DecodesToCommit kind content commit
        → IsAtStartOfCommit kind content reader → ¬ EndsSearch IsMessageToken reader (optional_error Malformed) }
{}
