//! Laws on the tokens of a commit. Each function is empty, and its contract is the law.
ghost use Rattle.std.specs.Prelude.{◌≡◌, ℕ, List};
ghost use Rattle.gixobj_hash.specs.declared.hash.kind.Kind.{Kind};
ghost use Rattle.gixobj_hash.specs.Runs.{Ending, complete};
ghost use Rattle.gixobj_tokens.specs.CommitRuns.{YieldsCommitTokens};
ghost use Rattle.gixobj_tokens.specs.CommitTokens.{BeginsWithCommitToken, CommitTokenView};
ghost use Rattle.gixobj_tokens.specs.TokenSearch.{DecodesToCommitTokens};
ghost use Rattle.gixobj_grammar.specs.declared.lines.State.{State};

/// In each state of the iterator, bytes begin with at most one token.
pub fn commit_tokens_decode_uniquely()
    ensures { (kind : Kind) (before : State) (input : List ℕ) (token token' : CommitTokenView)
        (after after' : State) (rest rest' : List ℕ)
        → BeginsWithCommitToken kind before input token after rest
        → BeginsWithCommitToken kind before input token' after' rest' → (token ≡ token')
        × (after ≡ after') × (rest ≡ rest') }
{}

/// From each state bytes have at most one run of tokens, with one ending.
///
/// If the run is complete, the bytes are the concatenated encodings of its tokens.
pub fn commit_runs_decode_uniquely()
    ensures one_run { (kind : Kind) (before : State) (input : List ℕ)
        (tokens tokens' : List CommitTokenView) (ending ending' : Ending)
        → YieldsCommitTokens kind before input tokens ending
        → YieldsCommitTokens kind before input tokens' ending' → (tokens ≡ tokens') × (ending ≡ ending') }
    ensures decodes { (kind : Kind) (before : State) (input : List ℕ)
        (tokens : List CommitTokenView) → YieldsCommitTokens kind before input tokens complete
        → DecodesToCommitTokens kind input tokens }
{}
