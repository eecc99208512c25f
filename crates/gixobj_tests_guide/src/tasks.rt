//! Calls examples of docs/GUIDE.md once. That document prints the files without their head comments.

mod clauses;
mod commits;
mod entries;
mod headers;
mod ids;
mod listing;
mod loose;
pub mod renaming;
mod rewording;
mod runners;
mod signing;
mod streams;
mod tags;
mod tokens;
mod trailers;
pub mod unsigning;
mod values;
mod verifying;
mod writing;

use bstr::BStr;
use gix_object::hash::{Kind as HashKind, ObjectId};
use gix_object::signature::Output;
use gix_object::{Commit, CommitRef, Kind, decode};
use gixobj_tests_api::objects::{BLOB, FIRST, SECOND_BYTES, TAG_BYTES, TREE, TREE_BYTES};
use gixobj_tests_api::samples::{id, string_of};
use std::alloc::Global;

#[test]
fn writes_id_in_lower_case(rt: HostRuntime) {
    let mut buffer = [0; 64];
    let upper = b"CE013625030BA8DBA906F756967F9E9CA394464A";
    assert!(rt;
        ids::in_lower_case(upper, &mut buffer) == Some("ce013625030ba8dba906f756967f9e9ca394464a")
    );
}

/// Whether content is verified against the blob's id.
fn verifies_blob() -> bool {
    ids::verify_content(Kind::Blob, b"hello\n", id(BLOB)).is_ok()
        && ids::verify_content(Kind::Blob, b"hello", id(BLOB)).is_err()
}

#[test]
fn verifies_content(rt: HostRuntime) {
    assert!(rt; verifies_blob());
}

/// `git hash-object -t tag` prints the id of the tag.
#[test]
fn encodes_values_from_nothing(rt: HostRuntime) {
    let tag = id(b"17a06e40c0cab9c675740072ef2b116b2a6a51d4");
    assert!(rt; values::tag_id(rt.alloc(), id(BLOB), id(FIRST)).ok() == Some(tag));
}

/// Whether a loose object is the blob, without a link.
fn is_loose_blob(alloc: Global, loose: &[u8]) -> bool {
    loose::shown(alloc, loose).ok() == Some((Kind::Blob, 6, id(BLOB)))
        && loose::first_link(alloc, loose).ok() == Some(None)
}

/// Whether the blob is encoded as a loose object.
fn is_loose(alloc: Global) -> bool {
    match writing::loose_blob(alloc, b"hello\n") {
        Ok(blob) => is_loose_blob(alloc, &blob),
        Err(_) => false,
    }
}

/// Whether the blob has its id if it is read from a stream.
fn is_streamed() -> bool {
    streams::blob_id(&mut b"hello\n".as_slice(), 6).ok() == Some(id(BLOB))
}

#[test]
fn encodes_loose_blob_and_hashes_stream(rt: HostRuntime) {
    assert!(rt; is_loose(rt.alloc()));
    assert!(rt; is_streamed());
}

/// Whether a log line has the fields of the second commit.
fn is_second(line: &commits::LogLine<'_>) -> bool {
    line.tree == id(TREE)
        && line.parents.first() == Some(&id(FIRST))
        && line.author == BStr::new(b"A U Thor")
        && line.authored == Some(7)
        && line.committed == 8
        && line.title == BStr::new(b"second")
}

/// Whether the log line of the second commit has its fields.
fn is_logged(alloc: Global) -> bool {
    match commits::log_line(alloc, SECOND_BYTES) {
        Ok(line) => is_second(&line),
        Err(_) => false,
    }
}

/// Counts the sign-offs of a commit. `None` if memory runs out.
fn count_of_sign_offs(alloc: Global, commit: &CommitRef<'_>) -> Option<usize> {
    match trailers::sign_offs(alloc, commit) {
        Ok(found) => Some(found.len()),
        Err(_) => None,
    }
}

/// Whether the second commit has one sign-off.
fn is_signed_off(alloc: Global) -> bool {
    match CommitRef::from_bytes(alloc, SECOND_BYTES, HashKind::Sha1) {
        Ok(commit) => count_of_sign_offs(alloc, &commit) == Some(1),
        Err(_) => false,
    }
}

/// Whether a commit merges no tag, and is signed as `wanted` says.
fn is_signed(alloc: Global, content: &[u8], wanted: bool) -> bool {
    headers::signed_and_merging(alloc, content).ok() == Some((wanted, false))
}

#[test]
fn decodes_commit_fields_and_trailers(rt: HostRuntime) {
    let alloc = rt.alloc();
    assert!(rt; is_logged(alloc));
    assert!(rt; is_signed_off(alloc));
    assert!(rt; is_signed(alloc, SECOND_BYTES, false));
}

/// Whether the decoded id has these hex digits.
fn is_id(read: Result<ObjectId, decode::Error>, hex: &[u8]) -> bool {
    read.ok() == Some(id(hex))
}

/// Whether the first parent of the second commit is the first.
fn is_first_parent(alloc: Global) -> bool {
    tokens::first_parent(alloc, SECOND_BYTES).ok() == Some(Some(id(FIRST)))
}

#[test]
fn decodes_tree_and_first_parent(rt: HostRuntime) {
    let alloc = rt.alloc();
    assert!(rt; is_id(tokens::tree_of(alloc, SECOND_BYTES), TREE));
    assert!(rt; is_first_parent(alloc));
    assert!(rt; is_id(clauses::tree_of(alloc, SECOND_BYTES, HashKind::Sha1), TREE));
}

/// Whether the tag has its name, and the first commit as its target.
fn is_named() -> bool {
    tags::named(TAG_BYTES).ok() == Some((BStr::new(b"v1"), Kind::Commit, id(FIRST)))
}

/// Whether the tag has its tagger.
fn is_tagged() -> bool {
    tags::tagger_email(TAG_BYTES).ok() == Some(Some(BStr::new(b"a@b")))
}

#[test]
fn decodes_tag_fields(rt: HostRuntime) {
    assert!(rt; is_named());
    assert!(rt; is_tagged());
}

/// Whether the first executable file of the tree is the script.
fn runs_script(alloc: Global) -> bool {
    match listing::executables(alloc, TREE_BYTES) {
        Ok(names) => names.first() == Some(&BStr::new(b"run.sh")),
        Err(_) => false,
    }
}

/// Whether the tree has this file, or none, under a name.
fn is_file(alloc: Global, name: &[u8], wanted: Option<ObjectId>) -> bool {
    entries::file_id(alloc, TREE_BYTES, name).ok() == Some(wanted)
}

#[test]
fn finds_files_of_tree(rt: HostRuntime) {
    let alloc = rt.alloc();
    assert!(rt; runs_script(alloc));
    assert!(rt; is_file(alloc, b"a.txt", Some(id(BLOB))));
    assert!(rt; is_file(alloc, b"a", None));
}

/// Whether the encoding of a commit has this id and `size` bytes.
fn is_written(alloc: Global, commit: &Commit, hex: &[u8], size: usize) -> bool {
    match writing::written(alloc, commit) {
        Ok((of_commit, bytes)) => of_commit == id(hex) && bytes.len() == size,
        Err(_) => false,
    }
}

/// Whether the second commit with another message has this id and size.
fn is_reworded(alloc: Global, hex: &[u8], size: usize) -> bool {
    match rewording::reworded(alloc, SECOND_BYTES, string_of(alloc, b"other\n")) {
        Ok(commit) => is_written(alloc, &commit, hex, size),
        Err(_) => false,
    }
}

#[test]
fn encodes_reworded_commit(rt: HostRuntime) {
    assert!(rt; is_reworded(rt.alloc(), b"5efec627b4326e3fef8d92ecf3fb65b721eb2470", 157));
}

const SIGNATURE: &[u8] = b"-----BEGIN PGP SIGNATURE-----\nA\n";

/// Copies bytes. Empty if memory runs out.
fn copied(alloc: Global, bytes: &[u8]) -> Vec<u8> {
    Vec::from_slice(alloc, bytes).unwrap_or(Vec::new(alloc))
}

/// A runner whose program succeeds with this output.
fn runner(alloc: Global, stdout: &[u8], stderr: &[u8]) -> runners::Same {
    let answer = Output {
        success: true,
        stdout: copied(alloc, stdout),
        stderr: copied(alloc, stderr),
        result: None,
    };
    runners::Same { answer }
}

/// The second commit in its owned form. `None` if memory runs out.
fn second(alloc: Global) -> Option<Commit> {
    match CommitRef::from_bytes(alloc, SECOND_BYTES, HashKind::Sha1) {
        Ok(commit) => commit.into_owned(alloc).ok(),
        Err(_) => None,
    }
}

/// Signs a commit. `None` if signing fails.
fn signed(alloc: Global, commit: Commit) -> Option<Commit> {
    let mut signer = runner(alloc, SIGNATURE, b"[GNUPG:] SIG_CREATED x\n");
    let program = string_of(alloc, b"gpg");
    let key = string_of(alloc, b"K");
    signing::signed(alloc, commit, program, key, &mut signer).ok()
}

/// Encodes the signed second commit. `None` if signing fails.
fn signed_payload(alloc: Global) -> Option<Vec<u8>> {
    let commit = signed(alloc, second(alloc)?)?;
    match writing::written(alloc, &commit) {
        Ok((_, content)) => Some(content),
        Err(_) => None,
    }
}

/// Whether a program that reports a good signature verifies the commit as valid.
fn is_verified(alloc: Global, content: &[u8]) -> bool {
    let report = b"[GNUPG:] GOODSIG K A\n[GNUPG:] TRUST_FULLY\n";
    let mut verifier = runner(alloc, report, b"");
    match verifying::verified(alloc, content, string_of(alloc, b"gpg"), &mut verifier) {
        Ok(Some(outcome)) => outcome.is_valid(),
        _ => false,
    }
}

/// Whether the second commit is signed and then verified.
fn is_signed_and_verified(alloc: Global) -> bool {
    match signed_payload(alloc) {
        Some(content) => is_signed(alloc, &content, true) && is_verified(alloc, &content),
        None => false,
    }
}

#[test]
fn signs_and_verifies_commit(rt: HostRuntime) {
    assert!(rt; is_signed_and_verified(rt.alloc()));
}
