//! The split of a message into title and body (git-commit, "DISCUSSION").
ghost use Rattle.std.specs.Prelude.{◌≡◌, ◌≢◌, ◌≤◌, [], MatchOption, length};
ghost use Rattle.std.specs.Option.{option_map};
ghost use Rattle.bstr.specs.BStr.{bstr_bytes};
ghost use Rattle.gixobj_hash.specs.Optional.{bytes_if_some};
ghost use Rattle.gixobj_text.specs.LineBreaks.{IsFromBreak, after_break as after_break_of};
ghost use Rattle.gixobj_text.specs.LineBreaks.{after_two_breaks as after_two_of};
ghost use Rattle.gixobj_text.specs.Titles.{SplitsTitle};

use bstr::{BStr, ByteSlice};

/// Skips a line break at the start of the bytes, or returns `None` without one.
fn skip_break(bytes: &[u8]) -> Option<&[u8]>
    ensures { option_map (λ it. it.now) result ≡ after_break_of bytes.now }
{
    match bytes {
        [b'\n', rest @ ..] => Some(rest),
        [b'\r', b'\n', rest @ ..] => Some(rest),
        _ => None,
    }
}

/// Skips two line breaks at the start of the bytes, or returns `None` without them.
fn skip_two_breaks(bytes: &[u8]) -> Option<&[u8]>
    ensures { option_map (λ it. it.now) result ≡ after_two_of bytes.now }
{
    skip_break(skip_break(bytes)?)
}

/// Returns the body, or `None` if it is empty.
fn some_body(body: &[u8]) -> Option<BStr<'_>>
    ensures { MatchOption result (body.now ≡ [])
        (λ it. (bstr_bytes it ≡ body.now) × (body.now ≢ [])) }
{
    if body.is_empty() {
        None
    } else {
        Some(BStr::new(body))
    }
}

/// Returns the bytes from the first newline or carriage return on.
#[inline(always)]
#[tactic(auto, using(crate::proofs::BreakSkips::is_from_break_at_position, crate::proofs::BreakSkips::is_from_break_nil))]
fn from_break(bytes: &[u8]) -> &[u8]
    ensures value { IsFromBreak bytes.now result.now }
    ensures within { length result.now ≤ length bytes.now }
{
    match bytes.find_byteset(b"\n\r") {
        Some(position) => {
            let (_, rest) = bytes.split_at(position);
            rest
        }
        None => b"",
    }
}

/// Returns the title and the body of a message, without the two line breaks between them.
#[tactic(auto, using(crate::proofs::BreakSkips::is_unsplit_at_begin, crate::proofs::SplitTitles::splits_title_of_unsplit))]
pub(super) fn message_title_and_body(message: &[u8]) -> (BStr<'_>, Option<BStr<'_>>)
    ensures { SplitsTitle message.now (bstr_bytes result.0) (bytes_if_some result.1) }
{
    let mut rest = from_break(message);
    'positions: while let Some((_, after)) = rest.split_first() {
        if let Some(body) = skip_two_breaks(rest) {
            let title = &message[..message.len() - rest.len()];
            return (BStr::new(title), some_body(body));
        }
        rest = from_break(after);
    }
    (BStr::new(message), None)
}
