//! The first extra header of a name in the encoding of a commit (gitdatamodel, "commits"), and the signature, which is
//! one (gitformat-signature, "Commit signatures").
ghost use Rattle.std.specs.Prelude.{◌≡◌, ◌++◌, IfErr, IfOk, IfSome, MatchOption};
ghost use Rattle.std.specs.Cow.{cow_slice_items};
ghost use Rattle.gixobj_parse.specs.HeaderReading.{BorrowsOneLine};
ghost use Rattle.gixobj_grammar.specs.Lines.{IsParsedLine, header_line, line_view};
ghost use Rattle.gixobj_grammar.specs.CommitHeaders.{FindsNamedHeader, HasNamedHeader, HasNoNamedHeader};
ghost use Rattle.gixobj_grammar.specs.CommitHeaders.{IsNamedHeaderError, IsNamedLine};
ghost use Rattle.gixobj_grammar.specs.CommitSignatures.{FindsSignature, IsCommitSignatureError, signature_field};

use crate::lines::{Line, State, decode_line};
use gixobj_hash::decode::Error;
use gixobj_hash::hash::Kind;
use std::alloc::Global;
use std::borrow::CowSlice;

/// The name of the signature header of a commit with SHA-1 ids.
pub const SIGNATURE_FIELD_NAME: &str = "gpgsig";

/// The name of the signature header of a commit with SHA-256 ids.
pub const SIGNATURE_FIELD_NAME_SHA256: &str = "gpgsig-sha256";

/// Returns the name of the signature header of a commit with ids of this kind (gitformat-signature, "Commit
/// signatures"). Allocates nothing.
pub fn signature_field_name(hash_kind: Kind) -> &'static str
    ensures { result.now ≡ signature_field hash_kind }
{
    match hash_kind {
        Kind::Sha1 => SIGNATURE_FIELD_NAME,
        Kind::Sha256 => SIGNATURE_FIELD_NAME_SHA256,
    }
}

/// An extra header in the encoding of a commit. [`find_header`] and [`find_signature`] return one.
#[derive(Drop)]
pub struct FoundHeader<'a> {
    /// The value. One of a single line is borrowed.
    pub value: CowSlice<'a, u8>,
    /// The bytes before the header.
    pub before: &'a [u8],
    /// The bytes after the header.
    pub after: &'a [u8],
}

/// Finds the signature in a commit's encoding with ids of `hash_kind`: the first header named
/// [`signature_field_name`] of `hash_kind`.
///
/// Lines after it aren't decoded. Returns `None` if all lines are valid, and none is such a header.
///
/// Allocates the values of headers of several lines, up to the signature.
///
/// # Errors
///
/// - [`Error::Malformed`] if a line up to the signature is malformed or, without a signature, any line.
/// - [`Error::OutOfMemory`] if such a value can't be allocated.
pub fn find_signature<'a>(
    alloc: Global,
    bytes: &'a [u8],
    hash_kind: Kind,
) -> Result<Option<FoundHeader<'a>>, Error>
    ensures found { IfOk result (FindsSignature hash_kind bytes.now) }
    ensures error { IfErr result (IsCommitSignatureError hash_kind bytes.now) }
    ensures borrowed { IfOk result (λ found. IfSome found (λ it. BorrowsOneLine it.value)) }
{
    let field = signature_field_name(hash_kind).as_bytes();
    find_header(alloc, bytes, hash_kind, field)
}

/// Finds the first extra header of this name in a commit's encoding with ids of `hash_kind`.
///
/// Lines after it aren't decoded. Returns `None` if all lines are valid, and none is such a header.
///
/// Allocates the values of headers of several lines, up to that header.
///
/// # Errors
///
/// - [`Error::Malformed`] if a line up to the header is malformed or, without such a header, any line.
/// - [`Error::OutOfMemory`] if such a value can't be allocated.
pub fn find_header<'a>(
    alloc: Global,
    bytes: &'a [u8],
    hash_kind: Kind,
    name: &[u8],
) -> Result<Option<FoundHeader<'a>>, Error>
    ensures found { IfOk result (FindsNamedHeader hash_kind name.now bytes.now) }
    ensures error { IfErr result (IsNamedHeaderError hash_kind name.now bytes.now) }
    ensures borrowed { IfOk result (λ found. IfSome found (λ it. BorrowsOneLine it.value)) }
{
    let mut state = State::Tree;
    let mut rest = bytes;
    let mut position = 0;
    'lines: while !rest.is_empty() {
        let (line, next, after) = match decode_line(alloc, state, hash_kind, rest) {
            Ok(read) => read,
            Err(error) => return Err(error),
        };
        if let Some(value) = value_of_line(line, name) {
            let before = &bytes[..position];
            return Ok(Some(FoundHeader {
                value,
                before,
                after,
            }));
        }
        position += rest.len() - after.len();
        state = next;
        rest = after;
    }
    Ok(None)
}

/// Returns the value of a header of this name, and `None` for any other line.
fn value_of_line<'a>(line: Line<'a>, name: &[u8]) -> Option<CowSlice<'a, u8>>
    ensures found { MatchOption result (¬ IsNamedLine name.now (line_view line.entry))
        (λ value. line_view line.entry ≡ header_line
        (record { name = name.now; value = cow_slice_items value })) }
    ensures borrowed { IfSome result (λ value. IsParsedLine line.entry → BorrowsOneLine value) }
{
    match line {
        Line::ExtraHeader((key, value)) => {
            if key.as_bytes() == name {
                Some(value)
            } else {
                None
            }
        }
        _ => None,
    }
}
