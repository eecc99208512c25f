//! Releases that are signed and audited. The runner answers only calls with the expected bytes
//! (gitformat-signature).

use crate::object_samples::{TRUNCATED, is_copy};
use bstr::{BString, ByteSlice};
use gix_object::hash::Kind as HashKind;
use gix_object::laws::{signed_commit_has_payload, signed_tag_has_payload};
use gix_object::signature::verify::{self, Outcome, TrustLevel};
use gix_object::signature::{Call, Format, Output, RunError, Runner, sign};
use gix_object::{Commit, CommitRef, CommitRefIter, Kind, Tag, TagRef, WriteTo, decode};
use gixobj_examples_objects::releases::{AuditError, audit, signed_payload};
use gixobj_tests_api::samples::string_of;
use std::alloc::Global;

const SIGNATURE: &[u8] = b"-----BEGIN PGP SIGNATURE-----\n\nA\n-----END PGP SIGNATURE-----\n";

/// A commit without a signature.
const PLAIN: &[u8] = b"tree 4b825dc642cb6eb9a060e54bf8d69288fbee4904\n\
    author A <a@b> 0 +0000\n\
    committer A <a@b> 0 +0000\n\
    encoding ISO-8859-1\n\
    \nhi\n";

/// `PLAIN` with the signature in its last header, as `git commit-tree -S` writes it. Continuation lines
/// begin with a space.
const SIGNED: &[u8] = b"tree 4b825dc642cb6eb9a060e54bf8d69288fbee4904\n\
    author A <a@b> 0 +0000\n\
    committer A <a@b> 0 +0000\n\
    encoding ISO-8859-1\n\
    gpgsig -----BEGIN PGP SIGNATURE-----\n\
    \x20\n\
    \x20A\n\
    \x20-----END PGP SIGNATURE-----\n\
    \nhi\n";

/// A commit without message encoding. After its old signature comes a header of two lines, named `encoding`.
const FOLDED: &[u8] = b"tree 4b825dc642cb6eb9a060e54bf8d69288fbee4904\n\
    author A <a@b> 0 +0000\n\
    committer A <a@b> 0 +0000\n\
    gpgsig x\n\
    encoding a\n\
    \x20b\n\
    \nhi\n";

/// `FOLDED` without the old signature. It isn't the encoding of a commit: a message encoding has one line.
const FOLDED_PAYLOAD: &[u8] = b"tree 4b825dc642cb6eb9a060e54bf8d69288fbee4904\n\
    author A <a@b> 0 +0000\n\
    committer A <a@b> 0 +0000\n\
    encoding a\n\
    \x20b\n\
    \nhi\n";

/// A tag without a signature.
const PLAIN_TAG: &[u8] = b"object ce013625030ba8dba906f756967f9e9ca394464a\n\
    type commit\n\
    tag v1\n\
    tagger A <a@b> 0 +0000\n\
    \nhi\n";

/// `PLAIN_TAG` with the signature after its message.
const SIGNED_TAG: &[u8] = b"object ce013625030ba8dba906f756967f9e9ca394464a\n\
    type commit\n\
    tag v1\n\
    tagger A <a@b> 0 +0000\n\
    \nhi\n\
    -----BEGIN PGP SIGNATURE-----\n\
    \n\
    A\n\
    -----END PGP SIGNATURE-----\n";

/// The output of a program that signs.
const CREATED: (&[u8], &[u8]) = (SIGNATURE, b"[GNUPG:] SIG_CREATED x\n");

/// The reports of a program on a good signature, and on a bad one.
const GOOD: &[u8] = b"[GNUPG:] GOODSIG K A\n[GNUPG:] TRUST_FULLY\n";

const BAD: &[u8] = b"[GNUPG:] BADSIG K A\n[GNUPG:] TRUST_FULLY\n";

/// A runner that starts no program. It answers a call only if the program's input and its one file, or none,
/// have the expected bytes. It records whether it was called.
#[derive(Drop)]
struct ExpectingRunner {
    alloc: Global,
    input: &'static [u8],
    file: Option<&'static [u8]>,
    output: (&'static [u8], &'static [u8]),
    is_called: bool,
}

/// A runner that expects these bytes as input and in its one file, or none, and answers with this output.
fn runner(
    alloc: Global,
    input: &'static [u8],
    file: Option<&'static [u8]>,
    output: (&'static [u8], &'static [u8]),
) -> ExpectingRunner {
    ExpectingRunner {
        alloc,
        input,
        file,
        output,
        is_called: false,
    }
}

/// The output of a program that succeeds. Empty if memory runs out.
fn output_of(alloc: Global, output: (&[u8], &[u8])) -> Output {
    let (stdout, stderr) = output;
    Output {
        success: true,
        stdout: Vec::from_slice(alloc, stdout).unwrap_or(Vec::new(alloc)),
        stderr: Vec::from_slice(alloc, stderr).unwrap_or(Vec::new(alloc)),
        result: None,
    }
}

/// Whether a call has this input, and one file with these bytes, or none.
fn is_expected(call: &Call, input: &[u8], file: Option<&[u8]>) -> bool {
    let has_file = match (call.files.as_slice(), file) {
        ([it], Some(wanted)) => it.as_bytes() == wanted,
        ([], None) => true,
        _ => false,
    };
    has_file && matches!(&call.input, Some(it) if it.as_bytes() == input)
}

impl Runner for ExpectingRunner {
    ghost use Rattle.std.specs.Prelude.{⊤};

    ghost runs = { λ _ _ _ _. ⊤ };

    fn run(&mut self, call: &Call) -> Result<Output, RunError> {
        self.is_called = true;
        if is_expected(call, self.input, self.file) {
            Ok(output_of(self.alloc, self.output))
        } else {
            Err(RunError::Spawn(BString::new(Vec::new(self.alloc))))
        }
    }
}

/// Options of signing.
fn signing_options(alloc: Global) -> sign::Options {
    sign::Options {
        format: Format::OpenPgp,
        program: string_of(alloc, b"gpg"),
        program_arguments: Vec::new(alloc),
        signing_key: string_of(alloc, b"K"),
        environment: Vec::new(alloc),
    }
}

/// Decodes a commit into its owned form.
fn commit_of(alloc: Global, content: &[u8]) -> Option<Commit> {
    match CommitRef::from_bytes(alloc, content, HashKind::Sha1) {
        Ok(commit) => commit.into_owned(alloc).ok(),
        Err(_) => None,
    }
}

/// Whether a commit is `SIGNED` after a runner that expects `payload` has signed it.
fn is_signed(alloc: Global, content: &[u8], payload: &'static [u8]) -> bool {
    let mut runner = runner(alloc, payload, None, CREATED);
    let options = signing_options(alloc);
    match commit_of(alloc, content) {
        Some(commit) => is_copy(&signed_payload(alloc, commit, options, &mut runner), SIGNED),
        None => false,
    }
}

#[test]
fn signs_payload_without_old_signature(rt: HostRuntime) {
    let alloc = rt.alloc();
    assert!(rt; is_signed(alloc, PLAIN, PLAIN));
    assert!(rt; is_signed(alloc, SIGNED, PLAIN));
    assert!(rt; !is_signed(alloc, PLAIN, SIGNED));
}

/// The commit that the law of signed commits signs, with this payload. `None` if one of both fails.
fn signed_by_law(alloc: Global, content: &[u8], payload: &'static [u8]) -> Option<Commit> {
    let mut runner = runner(alloc, payload, None, CREATED);
    let commit = commit_of(alloc, content)?;
    signed_commit_has_payload(alloc, commit, signing_options(alloc), &mut runner).ok()
}

/// The encoding of the commit that the law of signed commits signs, with this payload. Empty without one.
fn encoding_by_law(alloc: Global, content: &[u8], payload: &'static [u8]) -> Vec<u8> {
    let mut encoding = Vec::new(alloc);
    if let Some(signed) = signed_by_law(alloc, content, payload) {
        let _ = signed.write_to_vec(alloc, &mut encoding);
    }
    encoding
}

/// Names the result of the search for a signature in a commit's encoding.
fn search_name(alloc: Global, content: &[u8]) -> &'static str {
    match &CommitRefIter::signature(alloc, content, HashKind::Sha1) {
        Ok(Some((signature, _))) if signature.as_slice() == SIGNATURE => "signer's",
        Ok(Some(_)) => "another",
        Ok(None) => "no signature",
        Err(decode::Error::Malformed) => "malformed",
        Err(_) => "otherwise",
    }
}

#[test]
fn finds_signature_if_signed_commit_decodes(rt: HostRuntime) {
    let alloc = rt.alloc();
    let signed = encoding_by_law(alloc, PLAIN, PLAIN);
    assert!(rt; signed.as_slice() == SIGNED);
    assert!(rt; search_name(alloc, &signed) == "signer's");
    let folded = encoding_by_law(alloc, FOLDED, FOLDED_PAYLOAD);
    assert!(rt; !folded.is_empty());
    assert!(rt; search_name(alloc, &folded) == "malformed");
    assert!(rt; search_name(alloc, FOLDED) == "another");
}

/// Whether a tag is `SIGNED_TAG` after the law of signed tags has signed it.
fn is_signed_by_law(alloc: Global, tag: Tag) -> bool {
    let mut content = Vec::new(alloc);
    let mut runner = runner(alloc, PLAIN_TAG, None, CREATED);
    match signed_tag_has_payload(alloc, tag, signing_options(alloc), &mut runner) {
        Ok(tag) => tag.write_to_vec(alloc, &mut content).is_ok()
            && content.as_slice() == SIGNED_TAG,
        Err(_) => false,
    }
}

/// Decodes a tag into its owned form.
fn tag_of(alloc: Global, content: &[u8]) -> Option<Tag> {
    match TagRef::from_bytes(content, HashKind::Sha1) {
        Ok(tag) => tag.into_owned(alloc).ok(),
        Err(_) => None,
    }
}

#[test]
fn law_of_signed_tags_signs_payload(rt: HostRuntime) {
    let alloc = rt.alloc();
    let tag = tag_of(alloc, SIGNED_TAG).expect(&rt, "a tag");
    assert!(rt; is_signed_by_law(alloc, tag));
}

/// Options of verification.
fn verifying_options(alloc: Global) -> verify::Options {
    verify::Options::OpenPgp {
        program: string_of(alloc, b"gpg"),
        program_arguments: Vec::new(alloc),
        environment: Vec::new(alloc),
        minimum_trust: TrustLevel::Marginal,
    }
}

/// Names the result of an audit.
fn audit_name(audited: &Result<Option<Outcome>, AuditError>) -> &'static str {
    match audited {
        Ok(Some(outcome)) if outcome.is_valid() => "accepted",
        Ok(Some(_)) => "not accepted",
        Ok(None) => "no signature",
        Err(AuditError::NoRelease) => "no release",
        Err(AuditError::Read(decode::Error::Malformed)) => "malformed",
        Err(AuditError::Verify(verify::Error::Spawn(_))) => "not started",
        Err(_) => "otherwise",
    }
}

/// Names the result of the audit of an object, and whether it calls the runner. The runner expects `payload`
/// with the signature, and answers with this report.
fn audited(
    alloc: Global,
    kind: Kind,
    content: &[u8],
    payload: &'static [u8],
    report: &'static [u8],
) -> (&'static str, bool) {
    let mut runner = runner(alloc, payload, Some(SIGNATURE), (report, b""));
    let options = verifying_options(alloc);
    let name = audit_name(&audit(alloc, kind, HashKind::Sha1, content, options, &mut runner));
    (name, runner.is_called)
}

#[test]
fn audits_and_calls_program_only_for_signed_release(rt: HostRuntime) {
    let (alloc, commit, tag) = (rt.alloc(), Kind::Commit, Kind::Tag);
    assert!(rt; audited(alloc, commit, SIGNED, PLAIN, GOOD) == ("accepted", true));
    assert!(rt; audited(alloc, commit, SIGNED, PLAIN, BAD) == ("not accepted", true));
    assert!(rt; audited(alloc, commit, SIGNED, SIGNED, GOOD) == ("not started", true));
    assert!(rt; audited(alloc, tag, SIGNED_TAG, PLAIN_TAG, GOOD) == ("accepted", true));
    assert!(rt; audited(alloc, commit, PLAIN, PLAIN, GOOD) == ("no signature", false));
    assert!(rt; audited(alloc, tag, PLAIN_TAG, PLAIN, GOOD) == ("no signature", false));
    assert!(rt; audited(alloc, Kind::Blob, SIGNED, PLAIN, GOOD) == ("no release", false));
    assert!(rt; audited(alloc, commit, TRUNCATED, PLAIN, GOOD) == ("malformed", false));
}
