//! Laws of the calls over cursors: from a cursor of zeros on they find exactly what the readers of commits and tags
//! yield, and then that none follows.
ghost use Rattle.std.specs.Prelude.{MatchResult};
ghost use Rattle.gixobj_c.specs.Runs.{AreCommitTokensOf, AreTagTokensOf, IsCommitRunStatus, IsTagRunStatus};
ghost use Rattle.gixobj_c_codes.specs.Codes.{hash_of_code as hash_of};

pub mod trailers;

use crate::commits::{CommitToken, Cursor, gixobj_commit_token};
use crate::spans::empty_span;
use crate::tags::{TagToken, gixobj_tag_token};
use gixobj_c_codes::codes::{AT_END, DONE, OUT_OF_MEMORY};
use std::alloc::Global;

/// Calls [`gixobj_commit_token`] until no token follows, and returns all tokens. Allocates them.
///
/// # Errors
///
/// The status of the call that found no token, other than [`AT_END`]: [`UNKNOWN_CODE`], [`MALFORMED`], or
/// [`OUT_OF_MEMORY`], which is also the error without memory for the tokens.
///
/// [`UNKNOWN_CODE`]: gixobj_c_codes::codes::UNKNOWN_CODE
/// [`MALFORMED`]: gixobj_c_codes::codes::MALFORMED
pub fn commit_tokens(alloc: Global, hash: u8, commit: &[u8]) -> Result<Vec<CommitToken>, u32>
    ensures { MatchResult result (λ tokens. AreCommitTokensOf (hash_of hash) commit.now tokens.items)
        (IsCommitRunStatus (hash_of hash) commit.now) }
{
    let mut cursor = Cursor {
        offset: 0,
        state: 0,
    };
    let mut tokens = Vec::new(alloc);
    'calls: loop {
        let mut token = CommitToken {
            kind: 0,
            name: empty_span(0),
            value: empty_span(0),
        };
        let status = gixobj_commit_token(alloc, hash, commit, &mut cursor, &mut token);
        if status == AT_END {
            return Ok(tokens);
        }
        if status != DONE {
            return Err(status);
        }
        let Ok(()) = tokens.push(token) else {
            return Err(OUT_OF_MEMORY);
        };
    }
}

/// Calls [`gixobj_tag_token`] until no token follows, and returns all tokens. Allocates them.
///
/// # Errors
///
/// The status of the call that found no token, other than [`AT_END`]; [`OUT_OF_MEMORY`] without memory for the tokens.
pub fn tag_tokens(alloc: Global, hash: u8, tag: &[u8]) -> Result<Vec<TagToken>, u32>
    ensures { MatchResult result (λ tokens. AreTagTokensOf (hash_of hash) tag.now tokens.items)
        (IsTagRunStatus (hash_of hash) tag.now) }
{
    let mut cursor = Cursor {
        offset: 0,
        state: 0,
    };
    let mut tokens = Vec::new(alloc);
    'calls: loop {
        let mut token = TagToken {
            kind: 0,
            has_signature: 0,
            value: empty_span(0),
            signature: empty_span(0),
        };
        let status = gixobj_tag_token(hash, tag, &mut cursor, &mut token);
        if status == AT_END {
            return Ok(tokens);
        }
        if status != DONE {
            return Err(status);
        }
        let Ok(()) = tokens.push(token) else {
            return Err(OUT_OF_MEMORY);
        };
    }
}
