//! The modes of tree entries: their encoding, their type bits and their kinds.
ghost use Rattle.std.specs.Prelude.{◌≡◌, ◌≢◌, ◌++◌, slice_index, ◌≤◌, ◌↔◌, ◌+◌, ◌%◌, ℕ, List, [], ◌∷◌, IsTrue, IfSome};
ghost use Rattle.std.specs.Prelude.{IfNone, length, ◌^◌, ◌⊎◌, not, take};
ghost use Rattle.std.specs.Int.{from_be_bytes, w64};
ghost use Rattle.std.specs.Option.{SomeIff};
ghost use Rattle.std.specs.Str.Parse.{AllDigits, digits_value};
ghost use Rattle.bstr.specs.BStr.{bstr_bytes};
ghost use Rattle.gixobj_tree_entries.specs.declared.entry_kind.EntryKind.{EntryKind};
ghost use Rattle.gixobj_hash.specs.ByteStrings.{IsByteFree};
ghost use Rattle.gixobj_tree_entries.specs.Mode.{BeginsWithKind, BeginsWithMode, IsModeNumber, ObeysByteSix, EndsMode};
ghost use Rattle.gixobj_tree_entries.specs.Mode.{blob_type, commit_type, entry_kind_name, is_tree_mode, kind_of_mode};
ghost use Rattle.gixobj_tree_entries.specs.Mode.{link_type, mode_of_digits, mode_of_kind, encode_mode, mode_type};
ghost use Rattle.gixobj_tree_entries.specs.Mode.{mode_value, tree_type, type_bits, is_blob_mode, is_commit_mode};
ghost use Rattle.gixobj_tree_entries.specs.Mode.{is_link_mode, mode_bits};
ghost use Rattle.gixobj_hash.specs.Bytes.{digit, space};

use crate::EntryKind;
use bstr::{BStr, ByteSlice};

/// The mode of a tree entry, 16 bits: the type of the entry's object, and the permissions of a file.
///
/// [`EntryMode::from_bytes`] decodes a mode, and each [`EntryKind`] converts into its mode. A mode that is
/// decoded from `040000` differs from one of `40000`, so that it re-encodes identically.
#[derive(Clone, Copy, Debug, PartialEq, Eq, PartialOrd, Ord, Hash)]
pub struct EntryMode {
    internal: u16,
}

const IFMT: u16 = 0o170000;

/// Access
impl EntryMode {
    /// Returns the mode as a number of 16 bits.
    ///
    /// It is `0o040000` if the internal type bits are `0o140000`. These mark a tree whose encoding has a
    /// first `0`. Allocates nothing.
    pub fn value(self) -> u16
        ensures { result ≡ mode_value (mode_bits self) }
    {
        if self.internal & IFMT == 0o140000 {
            0o040000
        } else {
            self.internal
        }
    }

    /// Returns the kind of the type bits. Unknown type bits are of the kind [`EntryKind::Commit`].
    /// Allocates nothing.
    pub fn kind(&self) -> EntryKind
        ensures { result ≡ kind_of_mode (mode_bits self.now) }
    {
        match self.value() & IFMT {
            0o100000 if self.value() & 0o100 == 0o100 => EntryKind::BlobExecutable,
            0o100000 => EntryKind::Blob,
            0o120000 => EntryKind::Link,
            0o040000 => EntryKind::Tree,
            _ => EntryKind::Commit,
        }
    }

    /// Returns whether the type bits are those of a tree.
    pub fn is_tree(&self) -> bool
        ensures { result ≡ is_tree_mode (mode_bits self.now) }
    {
        self.value() & IFMT == 0o040000
    }

    /// Returns whether the type bits differ from those of a tree.
    pub fn is_no_tree(&self) -> bool
        ensures { result ≡ not (is_tree_mode (mode_bits self.now)) }
    {
        self.value() & IFMT != 0o040000
    }

    /// Returns whether the type bits are those of a symbolic link.
    pub fn is_link(&self) -> bool
        ensures { result ≡ is_link_mode (mode_bits self.now) }
    {
        self.value() & IFMT == 0o120000
    }

    /// Returns whether the type bits are those of a file.
    pub fn is_blob(&self) -> bool
        ensures { result ≡ is_blob_mode (mode_bits self.now) }
    {
        self.value() & IFMT == 0o100000
    }

    /// Returns whether the type bits are those of a submodule's commit.
    ///
    /// It is false for unknown type bits, although their kind is [`EntryKind::Commit`].
    pub fn is_commit(&self) -> bool
        ensures { result ≡ is_commit_mode (mode_bits self.now) }
    {
        self.value() & IFMT == 0o160000
    }

    /// Returns whether this is a file that its owner may execute. Allocates nothing.
    ///
    /// # Examples
    ///
    /// ```rust
    /// for entry in TreeRefIter::from_bytes(bytes, HashKind::Sha1) {
    ///     let entry = entry?;
    ///     if entry.mode.is_executable() {
    ///         names.push(entry.filename)?;
    ///     }
    /// }
    /// ```
    pub fn is_executable(&self) -> bool
        ensures { IsTrue result ↔ (kind_of_mode (mode_bits self.now) ≡ EntryKind.BlobExecutable) }
    {
        matches!(self.kind(), EntryKind::BlobExecutable)
    }

    /// Returns whether this is a file, executable or not, or a symbolic link. Allocates nothing.
    pub fn is_blob_or_symlink(&self) -> bool
        ensures { IsTrue result ↔ ((kind_of_mode (mode_bits self.now) ≡ EntryKind.Blob)
            ⊎ (kind_of_mode (mode_bits self.now) ≡ EntryKind.BlobExecutable)
            ⊎ (kind_of_mode (mode_bits self.now) ≡ EntryKind.Link)) }
    {
        matches!(
            self.kind(),
            EntryKind::Blob | EntryKind::BlobExecutable | EntryKind::Link
        )
    }

    /// Returns the name of the kind: `tree`, `blob`, `exe`, `link` or `commit`. Allocates nothing.
    pub fn as_str(&self) -> &'static str
        ensures { result.now ≡ entry_kind_name (kind_of_mode (mode_bits self.now)) }
    {
        match self.kind() {
            EntryKind::Tree => "tree",
            EntryKind::Blob => "blob",
            EntryKind::BlobExecutable => "exe",
            EntryKind::Link => "link",
            EntryKind::Commit => "commit",
        }
    }

    /// Encodes the mode in octal, as trees have it, into a buffer.
    ///
    /// Mode 0 has one digit, `0`. A tree has five digits, and a `0` before them if it was decoded from
    /// `040000`. All other modes have six digits. Allocates nothing.
    pub fn as_bytes<'a>(&self, backing: &'a mut [u8; 6]) -> BStr<'a>
        ensures encoded { bstr_bytes result ≡ encode_mode (mode_bits self.now) }
        ensures max_len { length (bstr_bytes result) ≤ 6 }
    {
        let mode = self.internal;
        let [first, second] = [octal_digit(mode / 32768), octal_digit(mode / 4096)];
        let [third, fourth] = [octal_digit(mode / 512), octal_digit(mode / 64)];
        let [fifth, sixth] = [octal_digit(mode / 8), octal_digit(mode)];
        if mode == 0 {
            *backing = [b'0'; 6];
            return BStr::new(&backing[..1]);
        }
        if second == b'4' && first != b'1' {
            *backing = [second, third, fourth, fifth, sixth, b' '];
            return BStr::new(&backing[..5]);
        }
        let first = if second == b'4' { b'0' } else { first };
        *backing = [first, second, third, fourth, fifth, sixth];
        BStr::new(&backing[..])
    }
}

/// Initialization
impl EntryMode {
    /// Decodes the mode at the beginning of the bytes, up to a space or the end.
    ///
    /// A mode is at most seven octal digits, and its number is taken modulo 65536. If byte 6, counted from
    /// 0, is a space and byte 5 is not, it has exactly six digits. `040000` decodes to a mode that differs
    /// from the one of `40000`.
    ///
    /// Returns `None` if the bytes are empty or begin with no such mode. Allocates nothing.
    pub fn from_bytes(i: &[u8]) -> Option<EntryMode>
        ensures found { IfSome result (λ mode. (rest : List ℕ)
            × BeginsWithMode i.now (mode_bits mode) rest) }
        ensures none { IfNone result ((mode : ℕ) (rest : List ℕ)
            → ¬ BeginsWithMode i.now mode rest) }
    {
        let (mode, _) = EntryMode::extract_from_bytes(i)?;
        Some(mode)
    }

    /// Decodes the mode at the beginning of the bytes by the rules of [`EntryMode::from_bytes`], and
    /// returns the bytes after its digits. Allocates nothing.
    #[inline(always)]
    #[tactic(auto, using(crate::proofs::EncodedKinds::begins_with_mode_of_kind))]
    pub fn extract_from_bytes(i: &[u8]) -> Option<(EntryMode, &[u8])>
        ensures found { IfSome result (λ parts.
            BeginsWithMode i.now (mode_bits parts.0) parts.1.now) }
        ensures none { IfNone result ((mode : ℕ) (rest : List ℕ)
            → ¬ BeginsWithMode i.now mode rest) }
    {
        match kind_prefix(i) {
            Some((kind, rest)) => Some((EntryMode::from(kind), rest)),
            None => any_mode_prefix(i),
        }
    }
}

impl From<EntryKind> for EntryMode {
    ghost from_gives = { λ kind mode. mode_bits mode ≡ mode_of_kind kind };

    /// Returns the mode of the kind.
    fn from(kind: EntryKind) -> EntryMode {
        EntryMode {
            internal: kind as u16,
        }
    }
}

impl From<EntryMode> for EntryKind {
    ghost from_gives = { λ mode kind. kind ≡ kind_of_mode (mode_bits mode) };

    /// Returns the kind of the mode.
    fn from(mode: EntryMode) -> EntryKind {
        mode.kind()
    }
}

impl TryFrom<u32> for EntryMode {
    ghost use Rattle.gixobj_tree_entries.specs.ModeNumber.{FromNumber};

    type Error = u32;

    ghost try_from_gives = { FromNumber };

    /// Makes the mode of this number.
    ///
    /// # Errors
    ///
    /// The number itself, unless it is `0o40000`, or has at most 16 bits and the bit `0o100000`.
    fn try_from(number: u32) -> Result<EntryMode, u32> {
        match u16::try_from(number) {
            Ok(internal) if internal == 0o040000 || internal & 0o100000 == 0o100000 => {
                Ok(EntryMode { internal })
            }
            _ => Err(number),
        }
    }
}

impl<'a> TryFrom<&'a [u8]> for EntryMode {
    ghost use Rattle.gixobj_tree_entries.specs.ModeNumber.{FromBytes};

    type Error = &'a [u8];

    ghost try_from_gives = { FromBytes };

    /// Decodes the mode at the beginning of the bytes by the rules of [`EntryMode::from_bytes`].
    ///
    /// # Errors
    ///
    /// The bytes themselves, if they begin with no mode.
    fn try_from(bytes: &'a [u8]) -> Result<EntryMode, &'a [u8]> {
        EntryMode::from_bytes(bytes).ok_or(bytes)
    }
}

/// Encodes the mode of a kind, with a space after it. Returns `None` for any other mode. Allocates nothing.
#[inline(always)]
pub fn encode_kind(mode: EntryMode) -> Option<&'static [u8]>
    ensures found { IfSome result (λ content. content.now ≡ encode_mode (mode_bits mode)
        ++ space ∷ []) }
    ensures none { IfNone result ((kind : EntryKind) → mode_bits mode ≢ mode_of_kind kind) }
{
    match mode.internal {
        0o100644 => Some(b"100644 "),
        0o040000 => Some(b"40000 "),
        0o100755 => Some(b"100755 "),
        0o120000 => Some(b"120000 "),
        0o160000 => Some(b"160000 "),
        _ => None,
    }
}

/// The lengths of encoded modes in bytes, by their highest four bits: five for a tree, and six for all
/// others but mode 0.
const ENCODED_LENS: [u8; 16] = [6, 6, 6, 6, 5, 6, 6, 6, 6, 6, 6, 6, 6, 6, 6, 6];

/// Returns the length of the encoded mode, in bytes. Allocates nothing.
#[inline(always)]
pub fn encoded_len(mode: EntryMode) -> usize
    ensures value { result ≡ length (encode_mode (mode_bits mode)) }
    ensures max_len { result ≤ 6 }
{
    if mode.internal == 0 {
        return 1;
    }
    usize::from(ENCODED_LENS[usize::from(mode.internal / 4096)])
}

/// Finds the kind whose mode and a space begin the bytes, and the rest from the space on. It compares seven
/// bytes at once, as a number, and finds none in fewer than eight.
#[inline(always)]
#[tactic(auto, using(crate::proofs::EncodedKinds::begins_with_blob_mode, crate::proofs::EncodedKinds::begins_with_tree_mode, crate::proofs::EncodedKinds::begins_with_executable_mode, crate::proofs::EncodedKinds::begins_with_link_mode, crate::proofs::EncodedKinds::begins_with_commit_mode, crate::proofs::EncodedKinds::no_kind_of_other_prefix))]
fn kind_prefix(i: &[u8]) -> Option<(EntryKind, &[u8])>
    ensures found { IfSome result (λ it. BeginsWithKind i.now it.0 it.1.now) }
    ensures none { 8 ≤ length i.now → IfNone result ((kind : EntryKind) (rest : List ℕ)
        → ¬ BeginsWithKind i.now kind rest) }
{
    if i.len() < 8 {
        return None;
    }
    let prefix = first_seven(i);
    if prefix == u64::from_be_bytes(*b"\0100644 ") {
        return Some((EntryKind::Blob, i.split_at(6).1));
    }
    if prefix / 256 == u64::from_be_bytes(*b"\0\040000 ") {
        return Some((EntryKind::Tree, i.split_at(5).1));
    }
    if prefix == u64::from_be_bytes(*b"\0100755 ") {
        return Some((EntryKind::BlobExecutable, i.split_at(6).1));
    }
    if prefix == u64::from_be_bytes(*b"\0120000 ") {
        return Some((EntryKind::Link, i.split_at(6).1));
    }
    if prefix == u64::from_be_bytes(*b"\0160000 ") {
        return Some((EntryKind::Commit, i.split_at(6).1));
    }
    None
}

/// Returns the first seven bytes as a big-endian number. It loads eight bytes at once and drops the last.
#[inline(always)]
fn first_seven(content: &[u8]) -> u64
    requires { 8 ≤ length content.now }
    ensures { result ≡ from_be_bytes w64 (0 ∷ take 7 content.now) }
{
    let token = u64::from_be_bytes([
        content[0], content[1], content[2], content[3], content[4], content[5], content[6],
        content[7],
    ]);
    token / 256
}

/// Decodes any mode at the beginning of the bytes, and returns the bytes after its digits.
fn any_mode_prefix(i: &[u8]) -> Option<(EntryMode, &[u8])>
    ensures found { IfSome result (λ parts.
        BeginsWithMode i.now (mode_bits parts.0) parts.1.now) }
    ensures none { IfNone result ((mode : ℕ) (rest : List ℕ)
        → ¬ BeginsWithMode i.now mode rest) }
{
    if i.is_empty() {
        return None;
    }
    let (digits, rest) = split_digits(i);
    if breaks_byte_six(i, digits.len()) {
        return None;
    }
    let internal = mode_from_digits(digits)?;
    Some((EntryMode { internal }, rest))
}

/// Splits the bytes before the first space, or at their end if they have none.
fn split_digits(i: &[u8]) -> (&[u8], &[u8])
    ensures joined { i.now ≡ result.0.now ++ result.1.now }
    ensures first { IsByteFree space result.0.now }
    ensures ends { EndsMode result.1.now }
{
    match i.find_byte(b' ') {
        Some(at) => i.split_at(at),
        None => (i, &[]),
    }
}

/// Returns whether the rule of byte 6 demands six digits, and the number of digits differs.
fn breaks_byte_six(i: &[u8], digits: usize) -> bool
    ensures { IsTrue result ↔ ((slice_index i.now 6 ≡ space) × (slice_index i.now 5 ≢ space)
        × (digits ≢ 6)) }
{
    i.get(6) == Some(&b' ') && i.get(5) != Some(&b' ') && digits != 6
}

/// Decodes a mode of at most seven octal digits.
fn mode_from_digits(digits: &[u8]) -> Option<u16>
    ensures { SomeIff result (AllDigits 8 digits.now × (length digits.now ≤ 7))
        (mode_of_digits digits.now) }
{
    if digits.len() > 7 || !are_octal(digits) {
        return None;
    }
    let number = octal_number(digits);
    if number == 0o040000 && digits[0] == b'0' {
        Some(0o140000)
    } else {
        Some(number)
    }
}

/// Returns whether all bytes are octal digits.
fn are_octal(digits: &[u8]) -> bool
    ensures { IsTrue result ↔ AllDigits 8 digits.now }
{
    digits.iter().all(|digit| matches!(*digit, b'0'..=b'7'))
}

/// Decodes octal digits as a number, modulo 65536.
fn octal_number(digits: &[u8]) -> u16
    requires { AllDigits 8 digits.now }
    ensures { result ≡ digits_value 8 digits.now % 2 ^ 16 }
{
    let mut number = 0u32;
    for digit in digits {
        number = (number * 8 + u32::from(*digit - b'0')) % 65536;
    }
    number as u16
}

/// Returns the last octal digit of a number, in ASCII.
fn octal_digit(number: u16) -> u8
    ensures { result ≡ digit (number % 8) }
{
    b'0' + (number % 8) as u8
}
