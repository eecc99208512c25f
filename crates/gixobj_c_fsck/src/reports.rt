//! Git's messages about an object, and its verdict.
ghost use Rattle.std.specs.Prelude.{◌↔◌, ◌≡◌, IfOk, IsTrue, OnErr};
ghost use Rattle.gixobj_c_codes.specs.Codes.{hash_of_code as hash_of, kind_of_code as kind_of};
ghost use Rattle.gixobj_c_fsck.specs.Codes.{strict_of_code as strict_of};
ghost use Rattle.gixobj_c_fsck.specs.Reports.{Allocates, IsFsckCall, IsReport, IsReportOfSet};
ghost use Rattle.gixobj_fsck_messages.specs.Sets.{HasMessage};
ghost use Rattle.gixobj_fsck_messages.specs.declared.message.Message.{Message};
ghost use Rattle.gixobj_fsck_tags.specs.Tags.{IsAcceptedTag, IsTagMessage};
ghost use Rattle.gixobj_hash.specs.declared.kind.Kind.TheVariants as kind;

use crate::messages::{severity_number, strictness};
use gixobj_c_codes::codes::{DONE, OUT_OF_MEMORY, UNKNOWN_CODE, hash_of_code, kind_of_code};
use gixobj_fsck::commit_messages;
use gixobj_fsck_messages::Messages;
use gixobj_fsck_tags::{has_extra_header, tag_messages};
use gixobj_fsck_trees::tree_messages;
use gixobj_hash::{Kind, hash};
use std::alloc::{AllocError, Global};

/// Git's messages about an object, and its verdict.
#[repr(C)]
#[derive(Clone, Copy)]
pub struct Report {
    /// The messages: bit `n` is 1 if git reports that with number `n`.
    pub messages: u64,
    /// The number of the worst severity of the messages, or 0 without a message.
    pub worst: u32,
    /// 1 if git accepts the object, and otherwise 0.
    pub is_accepted: u32,
}

/// Reports git's messages about an object, and whether git accepts it. Only a tree allocates.
#[unsafe(no_mangle)]
pub extern "C" fn gixobj_fsck(
    alloc: Global,
    hash: u8,
    kind: u8,
    bytes: &[u8],
    strict: u8,
    out: &mut Report,
) -> u32
    ensures { IsFsckCall (hash_of hash) (kind_of kind) (strict_of strict) bytes.now out.old out.new
        result }
{
    let Some(hash) = hash_of_code(hash) else {
        return UNKNOWN_CODE;
    };
    let Some(kind) = kind_of_code(kind) else {
        return UNKNOWN_CODE;
    };
    let Some(strict) = strictness(strict) else {
        return UNKNOWN_CODE;
    };
    match report_object(alloc, hash, kind, bytes, strict) {
        Ok(report) => {
            *out = report;
            DONE
        }
        Err(_) => OUT_OF_MEMORY,
    }
}

/// Returns the report of an object.
fn report_object(
    alloc: Global,
    hash: hash::Kind,
    kind: Kind,
    bytes: &[u8],
    strict: bool,
) -> Result<Report, AllocError>
    ensures found { IfOk result (IsReport strict hash kind bytes.now) }
    ensures error { OnErr result (Allocates hash kind bytes.now) }
{
    match kind {
        Kind::Blob => Ok(report_messages(Messages::new(), strict, true)),
        Kind::Tree => report_tree(alloc, hash, bytes, strict),
        Kind::Commit => Ok(report_commit(hash, bytes, strict)),
        Kind::Tag => Ok(report_tag(hash, bytes, strict)),
    }
}

/// Returns the report of a tree.
fn report_tree(
    alloc: Global,
    hash: hash::Kind,
    bytes: &[u8],
    strict: bool,
) -> Result<Report, AllocError>
    ensures found { IfOk result (IsReport strict hash kind.Tree bytes.now) }
    ensures error { OnErr result (Allocates hash kind.Tree bytes.now) }
{
    let messages = tree_messages(alloc, bytes, hash, strict)?;
    Ok(report_messages(messages, strict, !messages.has_error(strict)))
}

/// Returns the report of a commit.
fn report_commit(hash: hash::Kind, bytes: &[u8], strict: bool) -> Report
    ensures { IsReport strict hash kind.Commit bytes.now result }
{
    let messages = commit_messages(hash, bytes);
    report_messages(messages, strict, !messages.has_error(strict))
}

/// Returns the report of a tag.
fn report_tag(hash: hash::Kind, bytes: &[u8], strict: bool) -> Report
    ensures { IsReport strict hash kind.Tag bytes.now result }
{
    let messages = tag_messages(hash, bytes);
    let is_accepted = accepts_tag(hash, bytes, strict, messages);
    report_messages(messages, strict, is_accepted)
}

/// Returns whether git accepts a tag with these messages.
fn accepts_tag(hash: hash::Kind, bytes: &[u8], strict: bool, messages: Messages) -> bool
    requires { (it : Message) → HasMessage messages it ↔ IsTagMessage hash bytes.now it }
    ensures { IsTrue result ↔ IsAcceptedTag strict hash bytes.now }
{
    !messages.has_error(strict) || has_extra_header(hash, bytes)
}

/// Returns the report of these messages and this verdict.
fn report_messages(messages: Messages, strict: bool, is_accepted: bool) -> Report
    ensures { IsReportOfSet strict messages is_accepted result }
{
    Report {
        messages: messages.bits(),
        worst: severity_number(messages.worst(strict)),
        is_accepted: if is_accepted { 1 } else { 0 },
    }
}
