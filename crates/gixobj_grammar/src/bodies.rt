//! Decoding of a tag's body (gitdatamodel, "tag objects"; gitformat-signature, "Tag signatures").
ghost use Rattle.std.specs.Prelude.{◌≡◌, ◌∷◌, IfNone, IfSome, IsFalse};
ghost use Rattle.bstr.specs.BStr.{bstr_bytes};
ghost use Rattle.gixobj_hash.specs.Bytes.{newline};
ghost use Rattle.gixobj_hash.specs.Optional.{bytes_if_some};
ghost use Rattle.gixobj_grammar.specs.TagBodies.{IsBody, IsMalformedBody, IsParted, are_newlines as are_newlines_of};

use bstr::BStr;
use gixobj_parse::parse::after_newline;
use gixobj_parse::signature;

/// Decodes a body to its message and its signature.
///
/// A body of newlines alone, or an empty one, is itself the message. Any other begins with a newline, which
/// isn't part of the message. Returns `None` without that newline. Allocates nothing.
#[tactic(auto, using(crate::proofs::TagBodies::is_body_of_newlines, crate::proofs::TagBodies::is_body_after_newline, crate::proofs::TagBodies::no_body_of_other_byte))]
pub fn body(input: &[u8]) -> Option<(BStr<'_>, Option<BStr<'_>>)>
    ensures found { IfSome result (λ it. IsBody input.now (bstr_bytes it.0) (bytes_if_some it.1)) }
    ensures none { IfNone result (IsMalformedBody input.now) }
{
    if are_newlines(input) {
        return Some((BStr::new(input), None));
    }
    let Some(content) = after_newline(input) else {
        return None;
    };
    let (message, signature) = parted(content);
    Some((message, signature))
}

/// Splits bytes at the last marker at the start of a line, which begins the signature. The newline before it
/// is in neither the message nor the signature.
#[tactic(auto, using(crate::proofs::TagBodies::is_parted_unsigned, crate::proofs::TagBodies::is_parted_at_start, crate::proofs::TagBodies::is_parted_at_marker))]
fn parted(content: &[u8]) -> (BStr<'_>, Option<BStr<'_>>)
    ensures { IsParted content.now (bstr_bytes result.0) (bytes_if_some result.1) }
{
    let Some((start, _)) = signature::find(content) else {
        return (BStr::new(content), None);
    };
    if start == 0 {
        return (BStr::new(b""), Some(BStr::new(content)));
    }
    (
        BStr::new(&content[..start - 1]),
        Some(BStr::new(&content[start..])),
    )
}

/// Returns whether all bytes are newlines, also if there are none. Allocates nothing.
pub fn are_newlines(content: &[u8]) -> bool
    ensures { result ≡ are_newlines_of content.now }
{
    content.iter().all(|byte| *byte == b'\n')
}
