//! The longest prefix of an input whose bytes are of one class.
ghost use Rattle.std.specs.Prelude.{◌≡◌};
ghost use Rattle.gixobj_fsck.specs.Spans.{IsSpan, is_of_class};
ghost use Rattle.gixobj_fsck.specs.declared.spans.Class.TheVariants as class;

use memchr::memchr3;

/// A class of bytes.
#[derive(Clone, Copy)]
pub enum Class {
    /// A byte of a name or an email: all but `<`, `>` and newlines.
    Name,
    /// White space before a number: a space, and the bytes from 9 to 13.
    White,
    /// A decimal digit.
    Digit,
}

/// Returns whether a byte is of this class.
#[inline(always)]
fn is_of_class(class: Class, byte: u8) -> bool
    ensures { result ≡ is_of_class class byte }
{
    match class {
        Class::Name => !(byte == b'<' || byte == b'>' || byte == b'\n'),
        Class::White => byte == b' ' || (9 <= byte && byte <= 13),
        Class::Digit => 48 <= byte && byte <= 57,
    }
}

/// Splits after the longest prefix whose bytes are of this class. Allocates nothing.
#[tactic(auto, using(crate::proofs::SpanParts::span_of_take, crate::proofs::SpanParts::span_of_all, std::proofs::lemmas::List::Folds::list_all_more))]
pub fn split_span(class: Class, input: &[u8]) -> (&[u8], &[u8])
    ensures { IsSpan class input.now result.0.now result.1.now }
{
    for (index, byte) in input.iter().enumerate() {
        if !is_of_class(class, *byte) {
            return input.split_at(index);
        }
    }
    (input, b"")
}

/// Splits before the first of `<`, `>` and a newline. Allocates nothing.
pub fn split_name(input: &[u8]) -> (&[u8], &[u8])
    ensures { IsSpan class.Name input.now result.0.now result.1.now }
{
    match memchr3(b'<', b'>', b'\n', input) {
        Some(at) => (&input[..at], &input[at..]),
        None => (input, b""),
    }
}
