//! Formats and marker positions of armored signatures (gitformat-signature, "DESCRIPTION", "Tag signatures").
ghost use Rattle.std.specs.Prelude.{◌≤◌, IfNone, IfSome, length};
ghost use Rattle.gixobj_parse.specs.LineWalk.{IsLastMarkerPrefix};
ghost use Rattle.gixobj_parse.specs.Markers.{HasNoMarker, IsMarkerPlace};

use bstr::{BStr, ByteSlice};

/// The format of a signature (gitformat-signature, "DESCRIPTION"). [`Format::from_signature`] finds it.
#[derive(Clone, Copy, Debug, PartialEq, Eq, PartialOrd, Ord, Hash)]
pub enum Format {
    /// OpenPGP: begins with `-----BEGIN PGP SIGNATURE-----` or `-----BEGIN PGP MESSAGE-----`.
    OpenPgp,
    /// X.509 certificate: begins with `-----BEGIN SIGNED MESSAGE-----`.
    X509,
    /// SSH key: begins with `-----BEGIN SSH SIGNATURE-----`.
    Ssh,
}

/// Initialization
impl Format {
    ghost use Rattle.gixobj_parse.specs.Markers.{BeginsWithMarker, BeginsWithNoMarker};

    /// Returns the format whose marker begins the signature, or `None` (gitformat-signature, "DESCRIPTION").
    ///
    /// Allocates nothing.
    #[tactic(auto, using(crate::proofs::MarkersFound::begins_with_pgp_signature, crate::proofs::MarkersFound::begins_with_pgp_message, crate::proofs::MarkersFound::begins_with_signed_message, crate::proofs::MarkersFound::begins_with_ssh_signature))]
    pub fn from_signature(signature: &[u8]) -> Option<Format>
        ensures found { IfSome result (λ format. BeginsWithMarker format signature.now) }
        ensures none { IfNone result (BeginsWithNoMarker signature.now) }
    {
        if signature.starts_with(b"-----BEGIN PGP SIGNATURE-----") {
            return Some(Format::OpenPgp);
        }
        if signature.starts_with(b"-----BEGIN PGP MESSAGE-----") {
            return Some(Format::OpenPgp);
        }
        if signature.starts_with(b"-----BEGIN SIGNED MESSAGE-----") {
            return Some(Format::X509);
        }
        if signature.starts_with(b"-----BEGIN SSH SIGNATURE-----") {
            return Some(Format::Ssh);
        }
        None
    }
}

/// A borrowed armored signature, from its marker on. `TagRefIter::signature` makes one.
#[derive(Clone, Copy, Debug, PartialEq, Eq, PartialOrd, Ord, Hash)]
pub struct SignatureRef<'a> {
    /// The format of the signature.
    pub format: Format,
    /// The bytes of the signature, with its marker.
    pub bytes: BStr<'a>,
}

/// Finds the last marker at the start of a line (gitformat-signature, "Tag signatures").
///
/// Returns its byte offset and its format, or `None` if no line begins with a marker. The search goes
/// backwards over the lines that begin with the prefix of all markers. Allocates nothing.
pub fn find(bytes: &[u8]) -> Option<(usize, Format)>
    ensures found { IfSome result (λ it. IsMarkerPlace bytes.now it.0 it.1) }
    ensures none { IfNone result (HasNoMarker bytes.now) }
{
    let mut end = bytes.len();
    while let Some(newline) = last_prefix(bytes, end) {
        let start = newline + 1;
        if let Some(format) = Format::from_signature(&bytes[start..]) {
            return Some((start, format));
        }
        end = newline;
    }
    let format = Format::from_signature(bytes)?;
    Some((0, format))
}

/// Returns the last offset before `end` of a newline and the prefix of all markers, or `None` without one.
fn last_prefix(bytes: &[u8], end: usize) -> Option<usize>
    requires within { end ≤ length bytes.now }
    ensures { IsLastMarkerPrefix bytes.now end result }
{
    (&bytes[..end]).rfind(b"\n-----BEGIN ")
}
