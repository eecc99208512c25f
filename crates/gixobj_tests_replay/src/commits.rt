//! Answers about commits: decoded, iterated, searched, encoded and copied.
ghost use Rattle.gixobj_codec.specs.CommitViews.{commit_lines};
ghost use Rattle.gixobj_codec.specs.CommitWriting.{HasIds};

use crate::objects::write_next_to;
use bstr::BStr;
use gixobj_base::actor::SignatureRef;
use gixobj_base::hash::Kind::Sha1;
use gixobj_base::{Kind, compute_hash, decode, hash};
use gixobj_codec::commit::ref_iter::Token;
use gixobj_codec::{Commit, CommitRef, CommitRefIter};
use gixobj_tests_recorded::actors::{
    add_time, write_actor, write_actor_or_fault, write_owned_actor,
};
use gixobj_tests_recorded::answer::{Answer, Form, Prefix};
use gixobj_tests_recorded::fields::{fault, kind_and_bytes, split_at_first};
use gixobj_tests_recorded::objects::{write_encoding, write_sizes};

/// Answers with a decoded commit, its encoding and its owned form.
pub(crate) fn commit_answer(question: &[u8], answer: &mut Answer) {
    let bytes = answer.input(question);
    answer.write_shown("id", compute_hash(Sha1, Kind::Commit, bytes.as_slice()));
    let commit = CommitRef::from_bytes(answer.alloc, bytes.as_slice(), Sha1);
    answer.write_result("whole", &commit);
    if let Ok(commit) = commit {
        write_commit(commit, answer);
    }
}

/// The columns of a commit, of its encoding and of its owned form.
fn write_commit(commit: CommitRef<'_>, answer: &mut Answer)
    requires { HasIds (commit_lines commit) }
{
    write_lines(&commit, answer);
    write_encoding(&commit, answer);
    write_owned_lines(commit.into_owned(answer.alloc), answer);
}

/// The columns of the lines of a commit.
fn write_lines(commit: &CommitRef<'_>, answer: &mut Answer)
    requires { HasIds (commit_lines commit.now) }
{
    answer.write_bytes("tree", commit.tree.as_bytes());
    answer.add_shown(commit.tree());
    write_parents(commit, answer);
    answer.write_bytes("author", commit.author.as_bytes());
    write_actor_or_fault("author-trim", commit.author(), answer);
    answer.write_bytes("committer", commit.committer.as_bytes());
    write_actor_or_fault("committer-trim", commit.committer(), answer);
    write_time(commit, answer);
    write_others(commit, answer);
}

/// The columns of the actors of an owned commit, and of its encoding.
fn write_owned_lines(owned: Result<Commit, decode::Error>, answer: &mut Answer) {
    answer.write_result("owned", &owned);
    if let Ok(owned) = &owned {
        answer.prefix = Prefix::Owned;
        write_owned_actor("author", &owned.author, answer);
        write_owned_actor("committer", &owned.committer, answer);
        write_encoding(owned, answer);
    }
}

/// The columns of the parents: their ids, and in hex their digits before them.
fn write_parents(commit: &CommitRef<'_>, answer: &mut Answer)
    requires { HasIds (commit_lines commit.now) }
{
    for (hex, id) in commit.parents.iter().zip(commit.parents()) {
        answer.write("parent");
        if let Form::Hex = answer.form {
            answer.add_bytes(hex.as_bytes());
        }
        answer.add_shown(id);
    }
}

/// The column of the committer's time.
fn write_time(commit: &CommitRef<'_>, answer: &mut Answer) {
    answer.write("time");
    match commit.time() {
        Ok(time) => add_time(Some(time), answer),
        Err(error) => answer.add(fault(&error)),
    }
}

/// The columns of the encoding, the headers, the signature and the message. Escaped bytes have no signature.
fn write_others(commit: &CommitRef<'_>, answer: &mut Answer)
    requires { HasIds (commit_lines commit.now) }
{
    answer.write_if_some("encoding", commit.encoding);
    for (name, value) in &commit.extra_headers {
        answer.write_bytes("header", name.as_bytes());
        answer.add_bytes(value.as_slice());
    }
    if let Form::Hex = answer.form {
        answer.write_if_some("signature", commit.extra_headers().pgp_signature());
    }
    answer.write_bytes("message", commit.message.as_bytes());
}

/// Answers with the sizes of a commit and of its owned form.
pub(crate) fn size_answer(question: &[u8], answer: &mut Answer) {
    let bytes = answer.input(question);
    match CommitRef::from_bytes(answer.alloc, bytes.as_slice(), Sha1) {
        Ok(commit) => {
            write_sizes(&commit, answer);
            match commit.into_owned(answer.alloc) {
                Ok(owned) => {
                    answer.prefix = Prefix::Owned;
                    write_sizes(&owned, answer);
                }
                Err(error) => answer.write_pair("owned", fault(&error)),
            }
        }
        Err(error) => answer.write_pair("whole", fault(&error)),
    }
}

/// Answers with the tokens of a commit, and the calls on its iterator.
pub(crate) fn token_answer(question: &[u8], answer: &mut Answer) {
    let bytes = answer.input(question);
    let tokens = CommitRefIter::from_bytes(answer.alloc, bytes.as_slice(), Sha1);
    answer.prefix = Prefix::Token;
    write_tokens(tokens, false, answer);
    answer.prefix = Prefix::Empty;
    answer.write("end");
    answer.prefix = Prefix::Iter;
    write_calls("parent", tokens, answer);
}

/// Answers with the calls on an iterator.
pub(crate) fn call_answer(question: &[u8], answer: &mut Answer) {
    let (hash_kind, bytes) = kind_and_bytes(question, answer);
    let tokens = CommitRefIter::from_bytes(answer.alloc, bytes.as_slice(), hash_kind);
    write_calls("parent-id", tokens, answer);
}

/// The columns of the calls on an iterator: the tree twice, the parents, the actors and the message.
fn write_calls(parent: &str, mut tokens: CommitRefIter<'_>, answer: &mut Answer) {
    let rest = tokens;
    answer.write_id("tree-id", tokens.tree_id());
    answer.write_id("tree-id", tokens.tree_id());
    write_yielded_parents(parent, rest, answer);
    for actor in rest.signatures() {
        write_actor("signature", actor, answer);
    }
    write_actor_or_fault("author", rest.author(), answer);
    write_actor_or_fault("committer", rest.committer(), answer);
    match rest.message() {
        Ok(message) => answer.write_bytes("message", message.as_bytes()),
        Err(error) => answer.write_pair("message", fault(&error)),
    }
}

/// The columns of the parents that the iterator yields.
fn write_yielded_parents(token: &str, tokens: CommitRefIter<'_>, answer: &mut Answer) {
    for id in tokens.parent_ids() {
        answer.write_shown(token, id);
    }
}

/// The columns of the remaining tokens, with actors trimmed or not. Returns the iterator at its end.
fn write_tokens<'a>(
    mut tokens: CommitRefIter<'a>,
    trims: bool,
    answer: &mut Answer,
) -> CommitRefIter<'a> {
    while let Some(token) = tokens.next() {
        match token {
            Ok(token) => write_token(token, trims, answer),
            Err(error) => answer.write(fault(&error)),
        }
    }
    tokens
}

/// The column of a token: its name and its value.
fn write_token(token: Token<'_>, trims: bool, answer: &mut Answer) {
    match token {
        Token::Tree { id } => answer.write_shown("tree", id),
        Token::Parent { id } => answer.write_shown("parent", id),
        Token::Author { signature } => write_yielded_actor("author", signature, trims, answer),
        Token::Committer { signature } => write_yielded_actor(
            "committer",
            signature,
            trims,
            answer,
        ),
        Token::Encoding(encoding) => answer.write_bytes("encoding", encoding.as_bytes()),
        Token::ExtraHeader((name, value)) => {
            answer.write_bytes("header", name.as_bytes());
            answer.add_bytes(value.as_slice());
        }
        Token::Message(message) => answer.write_bytes("message", message.as_bytes()),
    }
}

/// The column of an actor, trimmed or not.
fn write_yielded_actor(token: &str, actor: SignatureRef<'_>, trims: bool, answer: &mut Answer) {
    write_actor(token, if trims { actor.trim() } else { actor }, answer);
}

/// Answers with the commit that each reader decodes, its times, and its encodings.
pub(crate) fn shape_answer(question: &[u8], answer: &mut Answer) {
    let (hash_kind, bytes) = kind_and_bytes(question, answer);
    let input = bytes.as_slice();
    match CommitRef::from_bytes(answer.alloc, input, hash_kind) {
        Ok(commit) => {
            answer.write_shown("id", compute_hash(hash_kind, Kind::Commit, input));
            let tokens = CommitRefIter::from_bytes(answer.alloc, input, hash_kind);
            write_shape(&commit, tokens, answer);
            write_next_to("written", &commit, input, answer);
            write_owned(commit.into_owned(answer.alloc), input, answer);
        }
        Err(error) => answer.write_pair("whole", fault(&error)),
    }
}

/// The columns of the lines that both readers decode, of the iterated parents, and of the times.
fn write_shape(commit: &CommitRef<'_>, tokens: CommitRefIter<'_>, answer: &mut Answer)
    requires { HasIds (commit_lines commit.now) }
{
    let mut decoded = answer.part();
    write_decoded(commit, &mut decoded);
    let mut seen = answer.part();
    write_tokens(tokens, true, &mut seen);
    answer.write("");
    answer.push_answer(&decoded);
    answer.write_same_or("told", &seen, &decoded);
    write_yielded_parents("iter-parent", tokens, answer);
    answer.write("author-time");
    match commit.author() {
        Ok(author) => add_time(author.time(), answer),
        Err(error) => answer.add(fault(&error)),
    }
    write_time(commit, answer);
}

/// The columns of a decoded commit, with its actors trimmed.
fn write_decoded(commit: &CommitRef<'_>, answer: &mut Answer)
    requires { HasIds (commit_lines commit.now) }
{
    answer.write_shown("tree", commit.tree());
    write_parents(commit, answer);
    write_actor_or_fault("author", commit.author(), answer);
    write_actor_or_fault("committer", commit.committer(), answer);
    write_others(commit, answer);
}

/// The columns of an owned commit's encoding, or of the error.
fn write_owned(owned: Result<Commit, decode::Error>, input: &[u8], answer: &mut Answer) {
    match owned {
        Ok(commit) => write_next_to("owned", &commit, input, answer),
        Err(error) => answer.write_pair("owned", fault(&error)),
    }
}

/// Answers whether the input decodes as a commit, which tokens it yields, and how the iterator ends.
pub(crate) fn beginning_answer(question: &[u8], answer: &mut Answer) {
    let (hash_kind, bytes) = kind_and_bytes(question, answer);
    let input = bytes.as_slice();
    write_entire(input, hash_kind, answer);
    let tokens = CommitRefIter::from_bytes(answer.alloc, input, hash_kind);
    let mut rest = write_tokens(tokens, false, answer);
    answer.write("end");
    if rest.next().is_none() {
        answer.write("end");
    }
}

/// The column of whether the input decodes as a commit.
fn write_entire(input: &[u8], hash_kind: hash::Kind, answer: &mut Answer) {
    let commit = CommitRef::from_bytes(answer.alloc, input, hash_kind);
    answer.write_result("whole", &commit);
}

/// Answers with the headers of a name in a commit, borrowed and owned.
pub(crate) fn search_answer(question: &[u8], answer: &mut Answer) {
    let (name, content) = split_at_first(question, b' ');
    let name = str::from_utf8(name).unwrap_or("");
    let (hash_kind, bytes) = kind_and_bytes(content, answer);
    match CommitRef::from_bytes(answer.alloc, bytes.as_slice(), hash_kind) {
        Ok(commit) => write_search(commit, name, answer),
        Err(error) => answer.write_pair("whole", fault(&error)),
    }
}

/// The columns of the headers of this name in a commit, borrowed and owned.
fn write_search(commit: CommitRef<'_>, name: &str, answer: &mut Answer)
    requires { HasIds (commit_lines commit) }
{
    let mut found = answer.part();
    write_found(&commit, name, &mut found);
    let mut owned = answer.part();
    match commit.into_owned(answer.alloc) {
        Ok(commit) => write_owned_found(&commit, name, &mut owned),
        Err(error) => owned.write(fault(&error)),
    }
    answer.push_answer(&found);
    answer.write_same_or("owned", &owned, &found);
}

/// The columns of the headers of this name in a borrowed commit, and of its signature.
fn write_found(commit: &CommitRef<'_>, name: &str, answer: &mut Answer)
    requires { HasIds (commit_lines commit.now) }
{
    write_first(
        commit.extra_headers().find(name),
        commit.extra_headers().find_pos(name),
        answer,
    );
    write_values(commit, name, answer);
    write_value("signature", commit.extra_headers().pgp_signature(), answer);
}

/// The columns of the headers of this name in an owned commit, and of its signature.
fn write_owned_found(commit: &Commit, name: &str, answer: &mut Answer) {
    write_first(
        commit.extra_headers().find(name),
        commit.extra_headers().find_pos(name),
        answer,
    );
    write_owned_values(commit, name, answer);
    write_value("signature", commit.extra_headers().pgp_signature(), answer);
}

/// The columns of the values of this name in a borrowed commit.
fn write_values(commit: &CommitRef<'_>, name: &str, answer: &mut Answer)
    requires { HasIds (commit_lines commit.now) }
{
    for value in commit.extra_headers().find_all(name) {
        answer.write_bytes("value", value.as_bytes());
    }
}

/// The columns of the values of this name in an owned commit.
fn write_owned_values(commit: &Commit, name: &str, answer: &mut Answer) {
    for value in commit.extra_headers().find_all(name) {
        answer.write_bytes("value", value.as_bytes());
    }
}

/// The columns of the first value and its position, or of missing ones.
fn write_first(value: Option<BStr<'_>>, position: Option<usize>, answer: &mut Answer) {
    write_value("found", value, answer);
    match position {
        Some(position) => answer.write_shown("place", position),
        None => answer.write_pair("place", "-"),
    }
}

/// The column of a value, or of a missing one.
fn write_value(token: &str, value: Option<BStr<'_>>, answer: &mut Answer) {
    match value {
        Some(value) => {
            answer.write_pair(token, "=");
            answer.add_bytes(value.as_bytes());
        }
        None => answer.write_pair(token, "-"),
    }
}
