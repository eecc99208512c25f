//! The lines of a body, their content and their indentation.
ghost use Rattle.std.specs.Prelude.{◌≡◌, ◌≤◌, [], MatchOption, length};
ghost use Rattle.std.specs.Char.{is_ascii_whitespace};
ghost use Rattle.std.specs.List.{list_all};
ghost use Rattle.bstr.specs.Text.{line_len};
ghost use Rattle.gixobj_text.specs.FirstLines.{IsFirstLine};
ghost use Rattle.gixobj_text.specs.BodyLines.{begins_indented as begins_indented_of, trimmed_line, without_last_byte};

use bstr::ByteSlice;

/// Returns a line without its newline, and then without one final carriage return.
#[inline(always)]
pub(crate) fn line_content(line: &[u8]) -> &[u8]
    ensures value { result.now ≡ trimmed_line line.now }
    ensures within { length result.now ≤ length line.now }
{
    without_last(without_last(line, b'\n'), b'\r')
}

/// Returns the bytes without one final `byte`, if they end with it.
#[inline(always)]
#[tactic(auto, using(crate::proofs::LastBytes::without_last_byte_of_last, crate::proofs::LastBytes::without_last_byte_of_other))]
fn without_last(bytes: &[u8], byte: u8) -> &[u8]
    ensures value { result.now ≡ without_last_byte byte bytes.now }
    ensures within { length result.now ≤ length bytes.now }
{
    match bytes.split_last() {
        Some((last, prefix)) => { if *last == byte { prefix } else { bytes } }
        None => bytes,
    }
}

/// Returns whether the bytes begin with ASCII white space.
#[inline(always)]
pub(crate) fn begins_indented(content: &[u8]) -> bool
    ensures { result ≡ begins_indented_of content.now }
{
    match content.split_first() {
        Some((byte, _)) => byte.is_ascii_whitespace(),
        None => false,
    }
}

/// Returns whether the bytes are ASCII white space alone, or empty.
#[inline(always)]
pub(crate) fn is_blank_line(content: &[u8]) -> bool
    ensures { result ≡ list_all is_ascii_whitespace content.now }
{
    content.iter().all(|byte| byte.is_ascii_whitespace())
}

/// Returns the length of the first line. Many lines are empty, with or without a carriage return, so the
/// first two bytes are tested before the search.
#[inline(always)]
#[tactic(auto, using(crate::proofs::FirstLines::line_len_of_newline, crate::proofs::FirstLines::line_len_of_second_newline, crate::proofs::FirstLines::line_len_at_newline, crate::proofs::FirstLines::line_len_of_newline_free))]
fn first_line_len(content: &[u8]) -> usize
    ensures len { result ≡ line_len content.now }
    ensures within { result ≤ length content.now }
{
    match content {
        [b'\n', ..] => 1,
        [_, b'\n', ..] => 2,
        _ => match content.find_byte(b'\n') {
            Some(position) => position + 1,
            None => content.len(),
        },
    }
}

/// Splits the bytes after their first line, or returns `None` if they are empty.
#[inline(always)]
pub(crate) fn split_line(content: &[u8]) -> Option<(&[u8], &[u8])>
    ensures { MatchOption result (content.now ≡ [])
        (λ it. IsFirstLine content.now it.0.now it.1.now) }
{
    if content.is_empty() {
        return None;
    }
    Some(content.split_at(first_line_len(content)))
}
