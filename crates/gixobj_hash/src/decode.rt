//! Decodes loose objects: the header and the content after it (`gitformat-loose`, "Loose object format").
ghost use Rattle.std.specs.Prelude.{◌≡◌, ◌↔◌, ◌+◌, ◌<◌, ◌≤◌, ◌^◌, ◌++◌, ◌∷◌, ℕ, List, IsTrue, IfOk, IfErr, Ok};
ghost use Rattle.std.specs.Prelude.{MatchResult, length};
ghost use Rattle.std.specs.Option.{SomeIff};
ghost use Rattle.std.specs.Str.Parse.{AllDigits, IsNumeral, digits_value, starts_with_minus};
ghost use Rattle.gixobj_hash.specs.declared.decode.Error.TheVariants.{OutOfMemory};
ghost use Rattle.gixobj_hash.specs.declared.kind.Kind.{Kind};
ghost use Rattle.gixobj_hash.specs.Bytes.{space};
ghost use Rattle.gixobj_hash.specs.Kind.{kind_name};
ghost use Rattle.gixobj_hash.specs.Decode.{HasContent, HasLooseHeaderOfLength, HasSizeFault, DecodesToSize};
ghost use Rattle.gixobj_hash.specs.Decode.{IsLooseHeaderError, IsLooseContentError, IsSizeError, size_digits};

use crate::split::{are_digits, number_from_digits, split_at_byte};
use crate::{Kind, kind};
use bstr::BString;
use std::alloc::{AllocError, AllocFailed, Global};
use std::fmt;

/// The error of a call that decodes an object.
#[derive(Clone, Debug, Drop, thiserror::Error)]
pub enum Error {
    /// The bytes are a malformed encoding of an object of the expected kind.
    #[error("malformed object")]
    Malformed,
    /// Memory for the decoded value could not be allocated.
    #[error("out of memory")]
    OutOfMemory,
}

impl From<AllocError> for Error {
    ghost from_gives = { λ _ error. error ≡ OutOfMemory };

    fn from(_: AllocError) -> Error {
        Error::OutOfMemory
    }
}

impl From<crate::OutOfMemory> for Error {
    ghost from_gives = { λ _ error. error ≡ OutOfMemory };

    fn from(_: crate::OutOfMemory) -> Error {
        Error::OutOfMemory
    }
}

impl<T: Drop> From<AllocFailed<T>> for Error {
    ghost from_gives = { λ _ error. error ≡ OutOfMemory };

    fn from(_: AllocFailed<T>) -> Error {
        Error::OutOfMemory
    }
}

/// Why a size is invalid. It is part of [`LooseHeaderDecodeError::ParseIntegerError`].
#[derive(Clone, Copy, Debug, PartialEq, Eq, thiserror::Error)]
pub enum ParseIntegerErrorKind {
    /// No byte follows the sign.
    Empty,
    /// A byte after the sign is not a decimal digit.
    InvalidDigit,
    /// The number exceeds 64 bits.
    PosOverflow,
    /// The number is below zero.
    NegOverflow,
}

impl fmt::Display for ParseIntegerErrorKind {
    fn fmt<W: fmt::Write>(&self, f: &mut fmt::Formatter<W>) -> fmt::Result {
        f.write_str(match self {
            ParseIntegerErrorKind::Empty => "no digit",
            ParseIntegerErrorKind::InvalidDigit => "a byte that is no digit",
            ParseIntegerErrorKind::PosOverflow => "a number past 64 bits",
            ParseIntegerErrorKind::NegOverflow => "a number below zero",
        })
    }
}

/// The error of [`loose_header`].
#[derive(Debug, Drop, thiserror::Error)]
pub enum LooseHeaderDecodeError {
    /// The size is invalid: the bytes between the first space and the zero byte after it.
    #[error("{message}: {source} in {number:?}")]
    ParseIntegerError {
        /// Why the size is invalid.
        source: ParseIntegerErrorKind,
        /// What the bytes were decoded as: a size.
        message: &'static str,
        /// A copy of the bytes of the size.
        number: BString,
    },
    /// The input lacks a space, or a zero byte after its first space.
    #[error("{message}")]
    InvalidHeader {
        /// What is missing.
        message: &'static str,
    },
    /// The bytes before the first space are an unknown kind of object.
    #[error("the header of a loose object: {0}")]
    ObjectHeader(kind::Error),
    /// The copy of the unknown kind or the invalid size could not be allocated.
    #[error("out of memory")]
    OutOfMemory,
}

impl From<kind::Error> for LooseHeaderDecodeError {
    ghost use Rattle.gixobj_hash.specs.Decode.Errors.{header_error};

    ghost from_gives = { λ e header. header ≡ header_error e };

    fn from(error: kind::Error) -> LooseHeaderDecodeError {
        match error {
            kind::Error::OutOfMemory => LooseHeaderDecodeError::OutOfMemory,
            failure => LooseHeaderDecodeError::ObjectHeader(failure),
        }
    }
}

impl From<AllocError> for LooseHeaderDecodeError {
    ghost use Rattle.gixobj_hash.specs.declared.decode.LooseHeaderDecodeError.TheVariants.{OutOfMemory};

    ghost from_gives = { λ _ e. e ≡ OutOfMemory };

    fn from(_e: AllocError) -> LooseHeaderDecodeError {
        LooseHeaderDecodeError::OutOfMemory
    }
}

/// The error of [`loose_content`].
#[derive(Debug, Drop, thiserror::Error)]
pub enum LooseContentError {
    /// The loose header could not be decoded.
    #[error("{0}")]
    Header(LooseHeaderDecodeError),
    /// Fewer bytes follow the header than it states.
    #[error("the content is shorter than the {size} bytes of its header")]
    Short {
        /// The size that the header states, in bytes.
        size: u64,
    },
}

impl From<LooseHeaderDecodeError> for LooseContentError {
    ghost use Rattle.gixobj_hash.specs.declared.decode.LooseContentError.TheVariants.{Header};

    ghost from_gives = { λ error it. it ≡ Header error };

    fn from(error: LooseHeaderDecodeError) -> LooseContentError {
        LooseContentError::Header(error)
    }
}

/// Decodes the loose object at the beginning of the input.
///
/// Returns the kind and the content, which is borrowed from the input. The content has the length that the
/// header states. Bytes after it are ignored.
///
/// Allocates only as [`loose_header`] does.
///
/// # Errors
///
/// - [`LooseContentError::Header`] with the error of [`loose_header`], out of memory included, if that call
///   fails.
/// - [`LooseContentError::Short`] with the size that the header states, if fewer bytes follow the header.
///
/// # Examples
///
/// ```rust
/// pub fn shown(alloc: Global, loose: &[u8]) -> Result<(Kind, usize, ObjectId), LooseContentError> {
///     let (kind, content) = loose_content(alloc, loose)?;
///     Ok((
///         kind,
///         content.len(),
///         compute_hash(HashKind::Sha1, kind, content),
///     ))
/// }
/// ```
pub fn loose_content(alloc: Global, input: &[u8]) -> Result<(Kind, &[u8]), LooseContentError>
    ensures found { IfOk result (λ it. HasContent input.now it.0 it.1.now) }
    ensures error { IfErr result (IsLooseContentError input.now) }
{
    let (kind, size, used) = loose_header(alloc, input)?;
    let following = &input[used..];
    if size > following.len() as u64 {
        return Err(LooseContentError::Short { size });
    }
    Ok((kind, &following[..size as usize]))
}

/// Decodes the loose header at the beginning of the input.
///
/// Returns the kind of the object, the size of its content in bytes, and the length of the header in bytes.
/// That length includes the zero byte. A size is an optional sign, `+` or `-`, and at least one decimal
/// digit; it fits 64 bits. After `-` only zero is a size.
///
/// Allocates only the copy for an error.
///
/// # Errors
///
/// The first of these cases that applies:
///
/// - [`LooseHeaderDecodeError::InvalidHeader`] if the input has no space.
/// - [`LooseHeaderDecodeError::ObjectHeader`] with a copy of the bytes before the first space, if they are
///   an unknown kind.
/// - [`LooseHeaderDecodeError::InvalidHeader`] if no zero byte follows that space.
/// - [`LooseHeaderDecodeError::ParseIntegerError`] with the cause and a copy of the bytes before that zero
///   byte, if they are an invalid size.
///
/// [`LooseHeaderDecodeError::OutOfMemory`] replaces an error whose copy can't be allocated.
pub fn loose_header(
    alloc: Global,
    input: &[u8],
) -> Result<(Kind, u64, usize), LooseHeaderDecodeError>
    ensures accepts { (kind : Kind) (size used : ℕ)
        → HasLooseHeaderOfLength input.now kind size used
        → result ≡ Ok (kind, size, used) }
    ensures found { IfOk result (λ header. HasLooseHeaderOfLength input.now header.0
        header.1 header.2) }
    ensures error { IfErr result (IsLooseHeaderError input.now) }
{
    decode_loose_header_parts(alloc, input)
}

/// Decodes a loose header; [`loose_header`] adds the clause `accepts`.
fn decode_loose_header_parts(
    alloc: Global,
    input: &[u8],
) -> Result<(Kind, u64, usize), LooseHeaderDecodeError>
    ensures found { IfOk result (λ header. HasLooseHeaderOfLength input.now header.0
        header.1 header.2) }
    ensures error { IfErr result (IsLooseHeaderError input.now) }
{
    let (kind, after) = decode_kind(alloc, input)?;
    let (size, len) = decode_size_part(alloc, after)?;
    Ok((kind, size, kind.as_bytes().len() + len))
}

/// Decodes the kind at the beginning of a loose header. Returns it and the bytes after its space.
fn decode_kind(alloc: Global, input: &[u8]) -> Result<(Kind, &[u8]), LooseHeaderDecodeError>
    ensures found { IfOk result (λ it. input.now ≡ kind_name it.0 ++ space ∷ it.1.now) }
    ensures error { IfErr result (IsLooseHeaderError input.now) }
{
    let Some((token, after)) = split_at_byte(input, b' ') else {
        let message = "no space after the kind of an object";
        return Err(LooseHeaderDecodeError::InvalidHeader { message });
    };
    let kind = Kind::from_bytes(alloc, token)?;
    Ok((kind, after))
}

/// Decodes the size that a zero byte ends. Returns it and its length, which counts the space before it and
/// the zero byte.
fn decode_size_part(alloc: Global, after: &[u8]) -> Result<(u64, usize), LooseHeaderDecodeError>
    ensures found { IfOk result (λ it. (kind : Kind) (input : List ℕ)
        → input ≡ kind_name kind ++ space ∷ after.now
        → HasLooseHeaderOfLength input kind it.0 (length (kind_name kind) + it.1)) }
    ensures error { IfErr result (λ e. (kind : Kind) (input : List ℕ)
        → input ≡ kind_name kind ++ space ∷ after.now → IsLooseHeaderError input e) }
    ensures max_len { IfOk result (λ it. it.1 ≤ length after.now + 1) }
{
    let Some((bytes, _)) = split_at_byte(after, 0) else {
        let message = "no zero byte after the size of an object";
        return Err(LooseHeaderDecodeError::InvalidHeader { message });
    };
    let size = decode_size(alloc, bytes)?;
    Ok((size, bytes.len() + 2))
}

/// Decodes a size, or fails with a copy of the bytes.
fn decode_size(alloc: Global, bytes: &[u8]) -> Result<u64, LooseHeaderDecodeError>
    ensures found { IfOk result (DecodesToSize bytes.now) }
    ensures error { IfErr result (IsSizeError bytes.now) }
{
    match size_from_bytes(bytes) {
        Ok(size) => Ok(size),
        Err(source) => Err(LooseHeaderDecodeError::ParseIntegerError {
            source,
            message: "the size of an object",
            number: BString::from_slice(alloc, bytes)?,
        }),
    }
}

/// Decodes a size: at most one sign, and then decimal digits.
fn size_from_bytes(bytes: &[u8]) -> Result<u64, ParseIntegerErrorKind>
    ensures { MatchResult result (DecodesToSize bytes.now) (HasSizeFault bytes.now) }
{
    let (is_negative, digits) = split_sign(bytes);
    if digits.is_empty() {
        return Err(ParseIntegerErrorKind::Empty);
    }
    if !are_digits(digits) {
        return Err(ParseIntegerErrorKind::InvalidDigit);
    }
    match number_from_digits(digits) {
        Some(0) => Ok(0),
        _ if is_negative => Err(ParseIntegerErrorKind::NegOverflow),
        Some(size) => Ok(size),
        None => Err(ParseIntegerErrorKind::PosOverflow),
    }
}

/// Returns whether the bytes begin with a minus, and the bytes after a sign.
fn split_sign(bytes: &[u8]) -> (bool, &[u8])
    ensures sign { result.0 ≡ starts_with_minus bytes.now }
    ensures digits { result.1.now ≡ size_digits bytes.now }
{
    match bytes {
        [b'-', digits @ ..] => (true, digits),
        [b'+', digits @ ..] => (false, digits),
        _ => (false, bytes),
    }
}
