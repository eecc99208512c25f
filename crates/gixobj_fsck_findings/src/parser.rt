//! What git's parser takes of commits and tags. It rejects some malformed objects before `git fsck` checks them.
ghost use Rattle.std.specs.Prelude.{◌↔◌, ◌*◌, ◌+◌, ◌<◌, IsTrue, codes, length};
ghost use Rattle.gixobj_fsck.specs.Lines.{BeginsWithName};
ghost use Rattle.gixobj_fsck_findings.specs.Parser.{AreParsedParents, IsBeforeZero, IsParsedCommit, IsParsedTag};
ghost use Rattle.gixobj_fsck_findings.specs.Parser.{NamesKind};
ghost use Rattle.gixobj_hash.specs.Hash.{hash_len};

use gixobj_hash::Kind as ObjectKind;
use gixobj_hash::hash::Kind;
use gixobj_hash::split::split_at_byte;
use gixobj_parse::parse::{after_name, header_field, header_id};

/// Returns whether git's parser takes a commit: its tree and its parents. Allocates nothing.
///
/// Ids are hex of the hash function `kind`. `git fsck` reports no message about a commit that its parser rejects.
pub fn is_parsed_commit(kind: Kind, commit: &[u8]) -> bool
    ensures { IsTrue result ↔ IsParsedCommit kind commit.now }
{
    let Some((_, rest)) = header_id(commit, b"tree", kind) else {
        return false;
    };
    if rest.is_empty() {
        return false;
    }
    are_parsed_parents(kind, rest)
}

/// Returns whether git's parser takes the lines of parents.
fn are_parsed_parents(kind: Kind, input: &[u8]) -> bool
    ensures { IsTrue result ↔ AreParsedParents kind input.now }
{
    let mut rest = input;
    while begins_parent(kind, rest) {
        let Some((_, after)) = header_id(rest, b"parent", kind) else {
            return false;
        };
        if after.is_empty() {
            return false;
        }
        rest = after;
    }
    true
}

/// Returns whether the input begins `parent `, and has bytes enough for its line.
fn begins_parent(kind: Kind, input: &[u8]) -> bool
    ensures { IsTrue result ↔ ((2 * hash_len kind + 7 < length input.now)
        × BeginsWithName (codes "parent") input.now) }
{
    if input.len() <= kind.len_in_hex() + 7 {
        return false;
    }
    match after_name(input, b"parent") {
        Some(_) => true,
        None => false,
    }
}

/// Returns whether git's parser takes a tag: its object, type and name. Allocates nothing.
///
/// Ids are hex of the hash function `kind`. `git fsck` reports no message about a tag that its parser rejects.
pub fn is_parsed_tag(kind: Kind, tag: &[u8]) -> bool
    ensures { IsTrue result ↔ IsParsedTag kind tag.now }
{
    if tag.len() < kind.len_in_hex() + 24 {
        return false;
    }
    let Some((_, start)) = header_id(tag, b"object", kind) else {
        return false;
    };
    let Some((value, end)) = header_field(start, b"type") else {
        return false;
    };
    if value.len() >= 20 {
        return false;
    }
    if !names_kind(value) {
        return false;
    }
    match header_field(end, b"tag") {
        Some(_) => true,
        None => false,
    }
}

/// Returns whether the value is the name of a kind of object, up to a zero byte.
fn names_kind(value: &[u8]) -> bool
    ensures { IsTrue result ↔ NamesKind value.now }
{
    match ObjectKind::from_name(before_zero(value)) {
        Some(_) => true,
        None => false,
    }
}

/// Returns the bytes before the first zero byte, or all without one.
fn before_zero(value: &[u8]) -> &[u8]
    ensures { IsBeforeZero value.now result.now }
{
    match split_at_byte(value, 0) {
        Some((name, _)) => name,
        None => value,
    }
}
