//! Positions of pieces in the input.
ghost use Rattle.std.specs.Prelude.{◌≡◌, ◌≤◌, drop, length};
ghost use Rattle.bstr.specs.BStr.{bstr_bytes};
ghost use Rattle.gixobj_c.specs.Spans.{BeginsWithPiece, HasPieceBefore, IsEmptyAt, IsSpanAtStart, IsSpanBefore};

use bstr::BStr;

/// The position of a piece of the input.
#[repr(C)]
#[derive(Clone, Copy)]
pub struct Span {
    /// The offset of its first byte.
    pub start: usize,
    /// The number of its bytes.
    pub len: usize,
}

/// Returns the span without bytes at this offset.
pub fn empty_span(offset: usize) -> Span
    ensures { IsEmptyAt offset result }
{
    Span {
        start: offset,
        len: 0,
    }
}

/// Returns the span of the piece that `after` bytes of the input follow.
#[tactic(auto, using(crate::proofs::Pieces::piece_fits, crate::proofs::Pieces::is_span_before))]
pub fn span_before(input: &[u8], piece: &[u8], after: usize) -> Span
    requires { HasPieceBefore input.now piece.now after }
    ensures { IsSpanBefore input.now piece.now after result }
{
    let len = piece.len();
    Span {
        start: input.len() - after - len,
        len,
    }
}

/// Returns the span of the piece that `after` bytes of the input follow.
pub fn span_of(input: &[u8], piece: BStr<'_>, after: usize) -> Span
    requires { HasPieceBefore input.now (bstr_bytes piece) after }
    ensures { IsSpanBefore input.now (bstr_bytes piece.entry) after result }
{
    span_before(input, piece.as_bytes(), after)
}

/// Returns the span of the piece with which the input begins.
#[tactic(auto, using(crate::proofs::Pieces::is_span_at_start))]
pub fn prefix_span(input: &[u8], piece: BStr<'_>) -> Span
    requires { BeginsWithPiece input.now (bstr_bytes piece) }
    ensures { IsSpanAtStart input.now (bstr_bytes piece.entry) result }
{
    let bytes = piece.as_bytes();
    Span {
        start: 0,
        len: bytes.len(),
    }
}

/// Returns the bytes from this offset on.
pub fn bytes_from(input: &[u8], offset: usize) -> &[u8]
    requires { offset ≤ length input.now }
    ensures { result.now ≡ drop offset input.now }
{
    &input[offset..]
}

/// Returns the offset at which the rest of the input begins.
#[tactic(auto, using(crate::proofs::Pieces::piece_fits, crate::proofs::Pieces::rest_of_drop))]
pub fn offset_of(input: &[u8], rest: &[u8]) -> usize
    requires { HasPieceBefore input.now rest.now 0 }
    ensures rest { drop result input.now ≡ rest.now }
    ensures within { result ≤ length input.now }
{
    input.len() - rest.len()
}
