//! Laws on decoding, copying and encoding commits. [`commit_decode_encode_agree`] encodes, and its contract
//! states what the call does; the other functions are empty, and their contract is the law.
ghost use Rattle.std.specs.Prelude.{◌≡◌, ◌≢◌, ◌<◌, ◌+◌, ◌++◌, ℕ, All, IfErr, List, [], OnOk, Some, length};
ghost use Rattle.std.specs.Prelude.{vec_capacity, vec_len};
ghost use Rattle.std.specs.List.{AllPass};
ghost use Rattle.gixobj_hash.specs.Hash.{is_lower_hex_digit};
ghost use Rattle.gixobj_streams.specs.Streams.{SinkView, list_view};
ghost use Rattle.gixobj_streams.specs.Writing.{FailsAsSink, RejectsNothing, IsWritingError};
ghost use Rattle.gixobj_streams.specs.declared.encode.Error.{Error};
ghost use Rattle.gixobj_hash.specs.declared.decode.Error.TheVariants.{Malformed};
ghost use Rattle.gixobj_hash.specs.declared.hash.kind.Kind.{Kind};
ghost use Rattle.gixobj_grammar.specs.Commit.{CommitLines, DecodesToCommit};
ghost use Rattle.gixobj_commit.specs.CommitOwned.{IsOwnedFormOfCommit, IsIntoOwnedCommitError};
ghost use Rattle.gixobj_commit.specs.CommitViews.{commit_lines, owned_commit_lines};
ghost use Rattle.gixobj_commit.specs.CommitWriting.{HasIds, IsCommitLinesError, IsOwnedCommitError, encode_commit};
ghost use Rattle.gixobj_commit.specs.CommitWriting.{in_lower_case};
ghost use Rattle.gixobj_commit.specs.Rewriting.{AreNormalizedPartsOfCommit, IsNormalizedCommitError};
ghost use Rattle.gixobj_commit.specs.declared.commit.Commit.{Commit};

use crate::CommitRef;
use gixobj_encode::WriteTo;
use gixobj_encode::encode::Error;
use std::alloc::Global;

/// A commit decodes uniquely: with ids of one kind, bytes decode to at most one commit.
pub fn commit_decodes_uniquely()
    ensures { (kind : Kind) (content : List ℕ) (commit commit' : CommitLines)
        → DecodesToCommit kind content commit → DecodesToCommit kind content commit' → commit ≡ commit' }
{}

/// A decoded commit re-encodes identically if its ids are in lower case.
///
/// The encoder rejects nothing of a decoded commit whose message encoding is absent or not empty.
pub fn commit_reencodes_identically()
    ensures same_bytes { (kind : Kind) (content : List ℕ) (commit : CommitLines)
        → DecodesToCommit kind content commit → AllPass is_lower_hex_digit commit.tree
        → All (λ hex. AllPass is_lower_hex_digit hex) commit.parents
        → encode_commit (in_lower_case commit) ≡ content }
    ensures no_error { (kind : Kind) (content : List ℕ) (commit : CommitLines)
        → DecodesToCommit kind content commit → commit.encoding ≢ Some []
        → RejectsNothing (IsCommitLinesError (in_lower_case commit)) }
{}

/// An owned copy has the parts of its commit, normalized.
///
/// Ids are in lower case, actors and their times are encoded from their parts, and all else is unchanged.
/// Copying a decoded commit fails only if memory runs out. Encoding the copy fails only if the sink fails, an
/// actor is illegal, or the message encoding is empty. An actor is illegal if its name or its email has a
/// `<`, a `>` or a newline.
pub fn owned_commit_has_same_parts()
    ensures parts { (lines : CommitLines) (commit : Commit) → IsOwnedFormOfCommit lines commit
        → AreNormalizedPartsOfCommit lines (owned_commit_lines commit) }
    ensures owned { (kind : Kind) (content : List ℕ) (lines : CommitLines)
        → DecodesToCommit kind content lines → ¬ IsIntoOwnedCommitError lines Malformed }
    ensures error { (kind : Kind) (content : List ℕ) (lines : CommitLines) (commit : Commit)
        (before after : SinkView) (error : Error) → DecodesToCommit kind content lines
        → IsOwnedFormOfCommit lines commit
        → IsWritingError (IsOwnedCommitError commit) before after
        (encode_commit (owned_commit_lines commit)) error
        → IsNormalizedCommitError lines before after (encode_commit (owned_commit_lines commit))
        error }
{}

/// Appends the encoding of a commit to a list.
///
/// A commit that was decoded from bytes with lower-case ids appends the same bytes. The hex fields must be
/// ids. The list allocates the capacity that it lacks.
///
/// # Errors
///
/// - [`Error::Writer`] of kind `OutOfMemory`, if an allocation of the list fails. A proper prefix of the
///   encoding is then appended. It is the only error of a decoded commit whose message encoding is absent or
///   not empty.
/// - Otherwise an error of [`WriteTo::write_to_vec`].
pub fn commit_decode_encode_agree(
    alloc: Global,
    commit: &CommitRef<'_>,
    out: &mut Vec<u8>,
) -> Result<(), Error>
    requires { HasIds (commit_lines commit.now) }
    ensures same_bytes { OnOk result ((kind : Kind) (content : List ℕ)
        → DecodesToCommit kind content (commit_lines commit.now)
        → AllPass is_lower_hex_digit (commit_lines commit.now).tree
        → All (λ hex. AllPass is_lower_hex_digit hex) (commit_lines commit.now).parents
        → out.new.items ≡ out.old.items ++ content) }
    ensures error { IfErr result (IsWritingError
        (IsCommitLinesError (in_lower_case (commit_lines commit.now))) (list_view out.old)
        (list_view out.new) (encode_commit (in_lower_case (commit_lines commit.now)))) }
    ensures fails_as_sink { IfErr result (λ error. (kind : Kind) (content : List ℕ)
        → DecodesToCommit kind content (commit_lines commit.now)
        → (commit_lines commit.now).encoding ≢ Some []
        → FailsAsSink (list_view out.old) (list_view out.new)
        (encode_commit (in_lower_case (commit_lines commit.now))) error) }
{
    match commit.write_to_vec(alloc, out) {
        Ok(()) => Ok(()),
        Err(error) => Err(error),
    }
}
