//! Whether bytes are the encoding of a commit (gitdatamodel, "commits").
ghost use Rattle.std.specs.Prelude.{MatchBool};
ghost use Rattle.gixobj_grammar.specs.Commit.{IsCommit, IsMalformedCommit};

use crate::lines::{State, after_line};
use gixobj_hash::hash::Kind;

/// Whether the bytes are the encoding of a commit with ids of this kind. Allocates nothing.
#[tactic(auto, using(crate::proofs::EntireCommits::reaches_start))]
pub fn is_commit(bytes: &[u8], hash_kind: Kind) -> bool
    ensures { MatchBool result (IsCommit hash_kind bytes.now)
        (IsMalformedCommit hash_kind bytes.now) }
{
    let mut state = State::Tree;
    let mut rest = bytes;
    while !matches!(state, State::End) {
        let Some((next_state, after)) = after_line(state, hash_kind, rest) else {
            return false;
        };
        state = next_state;
        rest = after;
    }
    true
}
