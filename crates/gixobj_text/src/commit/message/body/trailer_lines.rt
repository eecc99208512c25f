//! The split of a trailer line into its token and its value.
ghost use Rattle.std.specs.Prelude.{◌≡◌, ◌≤◌, ◌-◌, is_some, length, take};
ghost use Rattle.std.specs.Option.{option_map};
ghost use Rattle.gixobj_text.specs.BodyLines.{after_gap as after_gap_of, after_token as after_token_of};
ghost use Rattle.gixobj_text.specs.BodyLines.{is_gap_byte as is_gap_byte_of, is_token_byte as is_token_byte_of};
ghost use Rattle.gixobj_text.specs.BodyLines.{trailer_parts, with_value};
ghost use Rattle.gixobj_text.specs.Scanning.{read_parts};

/// Returns whether a byte is an ASCII letter, an ASCII digit or `-`.
#[inline(always)]
fn is_token_byte(byte: u8) -> bool
    ensures { result ≡ is_token_byte_of byte }
{
    byte.is_ascii_alphanumeric() || byte == b'-'
}

/// Returns whether a byte is a space or a tab.
#[inline(always)]
fn is_gap_byte(byte: u8) -> bool
    ensures { result ≡ is_gap_byte_of byte }
{
    byte == b' ' || byte == b'\t'
}

/// Skips the bytes of a token.
#[inline(always)]
#[tactic(auto, using(crate::proofs::Tokens::after_token_of_token_byte, crate::proofs::Tokens::after_token_of_other_byte))]
fn skip_token(content: &[u8]) -> &[u8]
    ensures { result.now ≡ after_token_of content.now }
{
    let mut rest = content;
    'bytes: while let Some((byte, after)) = rest.split_first() {
        if !is_token_byte(*byte) {
            return rest;
        }
        rest = after;
    }
    rest
}

/// Skips spaces and tabs and the colon after them, or returns `None` without the colon.
#[inline(always)]
#[tactic(auto, using(crate::proofs::Tokens::after_gap_at_colon, crate::proofs::Tokens::after_gap_of_space, crate::proofs::Tokens::after_gap_of_other_byte))]
fn skip_gap(content: &[u8]) -> Option<&[u8]>
    ensures { option_map (λ it. it.now) result ≡ after_gap_of content.now }
{
    let mut rest = content;
    'bytes: while let Some((byte, after)) = rest.split_first() {
        if *byte == b':' {
            return Some(after);
        }
        if !is_gap_byte(*byte) {
            return None;
        }
        rest = after;
    }
    None
}

/// Returns whether a line's content is a trailer line.
#[inline(always)]
#[tactic(auto, using(crate::proofs::Tokens::trailer_parts_is_some, crate::proofs::Tokens::trailer_parts_is_none))]
pub(crate) fn is_line_of_trailer(content: &[u8]) -> bool
    ensures { result ≡ is_some (trailer_parts content.now) }
{
    match content.split_first() {
        Some((byte, rest)) => is_token_byte(*byte) && skip_gap(skip_token(rest)).is_some(),
        None => false,
    }
}

/// Returns the token before `rest` and the value after its colon, or `None` without a colon.
#[inline(always)]
fn parts_after_token<'a>(content: &'a [u8], rest: &'a [u8]) -> Option<(&'a [u8], &'a [u8])>
    requires { length rest.now ≤ length content.now }
    ensures { read_parts result ≡ with_value (take
        (length content.now - length rest.now) content.now)
        (after_gap_of rest.now) }
{
    let value = skip_gap(rest)?;
    Some((&content[..content.len() - rest.len()], value))
}

/// Splits a trailer line's content into its token and the bytes after its colon.
#[inline(always)]
#[tactic(auto, using(crate::proofs::Tokens::trailer_parts_of_token, crate::proofs::Tokens::trailer_parts_none, crate::proofs::Tokens::after_token_len_le))]
pub(crate) fn split_trailer(content: &[u8]) -> Option<(&[u8], &[u8])>
    ensures { read_parts result ≡ trailer_parts content.now }
{
    let (byte, rest) = content.split_first()?;
    if !is_token_byte(*byte) {
        return None;
    }
    parts_after_token(content, skip_token(rest))
}
