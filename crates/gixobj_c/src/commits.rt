//! The tokens of commits.
ghost use Rattle.std.specs.Prelude.{◌≡◌, Some, drop};
ghost use Rattle.bstr.specs.BStr.{bstr_bytes};
ghost use Rattle.gixobj_c_codes.specs.Codes.{hash_of_code as hash_of};
ghost use Rattle.gixobj_c.specs.Commits.{BeginsWithLineAt, IsCommitTokenCall, IsTokenOfLine, IsValueToken};
ghost use Rattle.gixobj_c.specs.Commits.{state_of_code as state_of};
ghost use Rattle.gixobj_c.specs.Spans.{HasPieceBefore};
ghost use Rattle.gixobj_hash.specs.HeaderFormat.{BeginsWithHeader};
ghost use Rattle.gixobj_parse.specs.HeaderReading.{header_of};
ghost use Rattle.gixobj_grammar.specs.Lines.{header_line, line_view};

use crate::spans::{Span, bytes_from, empty_span, offset_of, span_before};
use bstr::BStr;
use gixobj_c_codes::codes::{
    AT_END, BAD_OFFSET, DONE, MALFORMED, OUT_OF_MEMORY, UNKNOWN_CODE, hash_of_code,
};
use gixobj_grammar::lines::{Line, State, decode_line};
use gixobj_hash::decode::Error;
use std::alloc::Global;
use std::borrow::CowSlice;

/// The position of a caller in a commit. At the start both numbers are 0.
#[repr(C)]
#[derive(Clone, Copy)]
pub struct Cursor {
    /// The offset.
    pub offset: usize,
    /// The number of the state, which says what may come next.
    pub state: u8,
}

/// A token of a commit: a part of its encoding.
#[repr(C)]
#[derive(Clone, Copy)]
pub struct CommitToken {
    /// 1: the tree, 2: a parent, 3: the author, 4: the committer, 5: the encoding, 6: an extra header, 7: the message.
    pub kind: u32,
    /// The position of the name of an extra header. Another token has no name: an empty span at its offset.
    pub name: Span,
    /// The position of the value. That of an extra header is its lines: each with its newline, and a space before each
    /// except the first.
    pub value: Span,
}

/// Decodes the token at the cursor, and moves the cursor after it. A header of several lines allocates.
#[unsafe(no_mangle)]
pub extern "C" fn gixobj_commit_token(
    alloc: Global,
    hash: u8,
    commit: &[u8],
    cursor: &mut Cursor,
    out: &mut CommitToken,
) -> u32
    ensures { IsCommitTokenCall (hash_of hash) commit.now (state_of cursor.old.state)
        cursor.old.offset cursor.old cursor.new out.old out.new result }
{
    let Some(hash) = hash_of_code(hash) else {
        return UNKNOWN_CODE;
    };
    let Some(before) = state_of_code(cursor.state) else {
        return UNKNOWN_CODE;
    };
    let offset = cursor.offset;
    if offset > commit.len() {
        return BAD_OFFSET;
    }
    if offset == commit.len() {
        return AT_END;
    }
    let input = bytes_from(commit, offset);
    match decode_line(alloc, before, hash, input) {
        Ok((line, after, rest)) => {
            *out = token_of_line(commit, offset, line, rest);
            *cursor = Cursor {
                offset: offset_of(commit, rest),
                state: state_code(after),
            };
            DONE
        }
        Err(Error::Malformed) => MALFORMED,
        Err(Error::OutOfMemory) => OUT_OF_MEMORY,
    }
}

/// Returns the token of the line at this offset.
#[tactic(auto, using(crate::proofs::Lines::is_token_of_same_line))]
fn token_of_line(commit: &[u8], offset: usize, line: Line<'_>, rest: &[u8]) -> CommitToken
    requires { BeginsWithLineAt commit.now offset (line_view line) rest.now }
    ensures { IsTokenOfLine commit.now offset (line_view line.entry) rest.now result }
{
    let after = rest.len() + 1;
    match line {
        Line::Tree(hex) => one_line(commit, offset, 1, hex, after),
        Line::Parent(hex) => one_line(commit, offset, 2, hex, after),
        Line::Author(actor, _) => one_line(commit, offset, 3, actor, after),
        Line::Committer(actor, _) => one_line(commit, offset, 4, actor, after),
        Line::Encoding(name) => one_line(commit, offset, 5, name, after),
        Line::ExtraHeader(field) => extra_header(commit, offset, field, rest),
        Line::Message(message) => one_line(commit, offset, 7, message, 0),
    }
}

/// Returns the token at this offset with this value, which `after` bytes of the commit follow.
fn one_line(commit: &[u8], offset: usize, kind: u32, value: BStr<'_>, after: usize) -> CommitToken
    requires { HasPieceBefore commit.now (bstr_bytes value) after }
    ensures { IsValueToken commit.now offset kind (bstr_bytes value.entry) after result }
{
    let name = empty_span(offset);
    let value = span_before(commit, value.as_bytes(), after);
    CommitToken { kind, name, value }
}

/// Returns the token of the extra header at this offset.
fn extra_header(
    commit: &[u8],
    offset: usize,
    field: (BStr<'_>, CowSlice<'_, u8>),
    rest: &[u8],
) -> CommitToken
    requires { BeginsWithHeader (drop offset commit.now) (header_of field) rest.now }
    ensures { IsTokenOfLine commit.now offset (header_line (header_of field.entry)) rest.now result }
{
    let bytes = field.0.as_bytes();
    let len = bytes.len();
    let start = offset + len + 1;
    let end = commit.len() - rest.len();
    CommitToken {
        kind: 6,
        name: Span { start: offset, len },
        value: Span {
            start,
            len: end - start,
        },
    }
}

/// Returns the state of this number, or `None`.
fn state_of_code(code: u8) -> Option<State>
    ensures { result ≡ state_of code }
{
    match code {
        0 => Some(State::Tree),
        1 => Some(State::Parents),
        2 => Some(State::Committer),
        3 => Some(State::Encoding),
        4 => Some(State::ExtraHeaders),
        5 => Some(State::End),
        _ => None,
    }
}

/// Returns the number of a state.
fn state_code(state: State) -> u8
    ensures { state_of result ≡ Some state }
{
    match state {
        State::Tree => 0,
        State::Parents => 1,
        State::Committer => 2,
        State::Encoding => 3,
        State::ExtraHeaders => 4,
        State::End => 5,
    }
}
