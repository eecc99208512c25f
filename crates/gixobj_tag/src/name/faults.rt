//! The faults of a name (git-check-ref-format, "DESCRIPTION"). Testing for them allocates nothing.
ghost use Rattle.std.specs.Prelude.{◌≡◌, ◌↔◌, IsTrue, MatchOption};
ghost use Rattle.gixobj_streams.specs.declared.encode.RefNameFault.TheVariants as fault;
ghost use Rattle.gixobj_tag.specs.NameRule.{HasFault, HasNoFault, IsFirstFault, IsForbidden};
ghost use Rattle.gixobj_tag.specs.PlainNames.{IsDotted, IsPlainName, is_plain_byte as is_plain_byte_of};
ghost use Rattle.gixobj_tag.specs.PlainNames.{may_follow as may_follow_of};

use bstr::ByteSlice;
use gixobj_encode::encode::RefNameFault;
use gixobj_hash::split::has_byte;

/// Returns the first fault of a name, in the order of [`RefNameFault`]. Most names are plain, and need no
/// search.
#[tactic(auto, using(crate::proofs::PlainNames::no_fault_of_plain_name))]
pub(super) fn first_fault(name: &[u8]) -> Option<RefNameFault>
    ensures { MatchOption result (HasNoFault name.now) (IsFirstFault name.now) }
{
    if is_plain(name) {
        None
    } else {
        first_found(name)
    }
}

/// Returns the first fault that one of nine tests finds. It isn't inlined, so that a plain name doesn't pay
/// for the setup of these searches.
#[inline(never)]
fn first_found(name: &[u8]) -> Option<RefNameFault>
    ensures { MatchOption result (HasNoFault name.now) (IsFirstFault name.now) }
{
    if name.is_empty() {
        return Some(RefNameFault::Empty);
    }
    if has_dot_start(name) {
        return Some(RefNameFault::DotStart);
    }
    if has_lock_suffix(name) {
        return Some(RefNameFault::LockSuffix);
    }
    if has_double_dot(name) {
        return Some(RefNameFault::DoubleDot);
    }
    if has_at_brace(name) {
        return Some(RefNameFault::AtBrace);
    }
    if has_backslash(name) {
        return Some(RefNameFault::Backslash);
    }
    if has_invalid_byte(name) {
        return Some(RefNameFault::InvalidByte);
    }
    if has_bad_slash(name) {
        return Some(RefNameFault::BadSlash);
    }
    if has_dot_end(name) {
        return Some(RefNameFault::DotEnd);
    }
    None
}

/// Returns whether the name consists of runs of plain bytes, separated by single dots, and doesn't end with
/// `.lock`.
#[inline(always)]
fn is_plain(name: &[u8]) -> bool
    ensures { IsTrue result ↔ IsPlainName name.now }
{
    is_dotted(name) && !name.ends_with(b".lock")
}

/// Returns whether the name consists of runs of plain bytes, separated by single dots.
#[inline(always)]
fn is_dotted(name: &[u8]) -> bool
    ensures { IsTrue result ↔ IsDotted name.now }
{
    let mut before = b'.';
    for byte in name {
        if !may_follow(before, *byte) {
            return false;
        }
        before = *byte;
    }
    before != b'.'
}

/// Returns whether the byte may follow the one before it: it is plain, and they are not two dots.
#[inline(always)]
fn may_follow(before: u8, byte: u8) -> bool
    ensures { result ≡ may_follow_of before byte }
{
    is_plain_byte(byte) && (before != b'.' || byte != b'.')
}

/// Returns whether the byte is a letter, a digit, a dash, an underscore or a dot.
#[inline(always)]
fn is_plain_byte(byte: u8) -> bool
    ensures { result ≡ is_plain_byte_of byte }
{
    byte.is_ascii_alphanumeric() || byte == b'-' || byte == b'_' || byte == b'.'
}

/// Returns whether a part begins with `.`: the first one, or one after a slash.
#[tactic(auto, using(crate::proofs::Names::dot_start_iff_at_start))]
fn has_dot_start(name: &[u8]) -> bool
    ensures { IsTrue result ↔ HasFault fault.DotStart name.now }
{
    name.starts_with(b".") || name.contains_str(b"/.")
}

/// Returns whether a part ends with `.lock`: the last one, or one before a slash.
#[tactic(auto, using(crate::proofs::Names::lock_suffix_iff_at_end))]
fn has_lock_suffix(name: &[u8]) -> bool
    ensures { IsTrue result ↔ HasFault fault.LockSuffix name.now }
{
    name.ends_with(b".lock") || name.contains_str(b".lock/")
}

/// Returns whether two dots follow each other.
fn has_double_dot(name: &[u8]) -> bool
    ensures { IsTrue result ↔ HasFault fault.DoubleDot name.now }
{
    name.contains_str(b"..")
}

/// Returns whether `@{` occurs in the name.
fn has_at_brace(name: &[u8]) -> bool
    ensures { IsTrue result ↔ HasFault fault.AtBrace name.now }
{
    name.contains_str(b"@{")
}

/// Returns whether a backslash occurs in the name.
fn has_backslash(name: &[u8]) -> bool
    ensures { IsTrue result ↔ HasFault fault.Backslash name.now }
{
    has_byte(name, b'\\')
}

/// Returns whether a forbidden byte occurs in the name.
fn has_invalid_byte(name: &[u8]) -> bool
    ensures { IsTrue result ↔ HasFault fault.InvalidByte name.now }
{
    name.iter().any(|byte| is_forbidden(*byte))
}

/// Returns whether the byte is forbidden in names: a control character, a space, or one of `~^:?*[`.
fn is_forbidden(byte: u8) -> bool
    ensures { IsTrue result ↔ IsForbidden byte }
{
    byte.is_ascii_control() || has_byte(b" ~^:?*[", byte)
}

/// Returns whether a slash is first or last, or two follow each other.
#[tactic(auto, using(crate::proofs::Names::bad_slash_iff_at_end))]
fn has_bad_slash(name: &[u8]) -> bool
    ensures { IsTrue result ↔ HasFault fault.BadSlash name.now }
{
    name.starts_with(b"/") || name.ends_with(b"/") || name.contains_str(b"//")
}

/// Returns whether the last byte is `.`.
fn has_dot_end(name: &[u8]) -> bool
    ensures { IsTrue result ↔ HasFault fault.DotEnd name.now }
{
    name.ends_with(b".")
}
