//! Validation and joining of the names in the paths of edits.
ghost use Rattle.std.specs.Prelude.{◌≡◌, ◌≢◌, ◌≤◌, ◌++◌, [], IfErr, IfOk, OnErr, OnOk, drop, length, take};
ghost use Rattle.bstr.specs.Owned.{bstring_bytes};
ghost use Rattle.gixobj_tree.specs.WellFormed.{IsEntryName};
ghost use Rattle.gixobj_editor_open.specs.Paths.{AreNames, names_of};
ghost use Rattle.gixobj_editor_lookups.specs.EditNames.{from_root, SplitsForRemoval, IsEntryNameError};
ghost use Rattle.gixobj_editor_lookups.specs.EditNames.{IsFirstNameError, StartsInvalid, directory_of};

use crate::error::Error;
use bstr::BString;
use gixobj_hash::split::has_byte;
use std::alloc::{AllocError, Global};

/// Splits a path into the directories that a removal may open, by valid names, and the names from the first
/// invalid one on. Allocates nothing.
pub fn split_for_removal(path: &[BString]) -> (&[BString], &[BString])
    ensures { SplitsForRemoval (names_of path.now) (names_of result.0.now)
        (names_of result.1.now) }
{
    let (names, rejected) = path.split_at(count_names(path));
    if rejected.is_empty() {
        return (above(names), rejected);
    }
    (names, rejected)
}

/// Returns the path without its last name.
pub(crate) fn above(path: &[BString]) -> &[BString]
    ensures { names_of result.now ≡ directory_of (names_of path.now) }
{
    match path.split_last() {
        Some((_last, directory)) => directory,
        None => path,
    }
}

/// Counts the names before the first invalid one.
#[tactic(auto, using(crate::proofs::ValidNames::are_names_take_more))]
fn count_names(path: &[BString]) -> usize
    ensures names { AreNames (names_of (take result path.now)) }
    ensures rest { StartsInvalid (names_of (drop result path.now)) }
    ensures count { result ≤ length path.now }
{
    let mut count = 0;
    for name in path {
        if validate_name(name).is_err() {
            return count;
        }
        count += 1;
    }
    count
}

/// Joins a prefix and a path; the result for an empty path is empty. Allocates the list and copies of the names.
///
/// # Errors
///
/// [`AllocError`] if an allocation fails, only for a path with names.
pub fn join_paths(
    alloc: Global,
    prefix: &[BString],
    path: &[BString],
) -> Result<Vec<BString>, AllocError>
    ensures joined { IfOk result (λ it. names_of it.items
        ≡ from_root (names_of prefix.now) (names_of path.now)) }
    ensures allocates { OnErr result (names_of path.now ≢ []) }
{
    let mut names = Vec::new(alloc);
    if path.is_empty() {
        return Ok(names);
    }
    push_names(alloc, &mut names, prefix)?;
    push_names(alloc, &mut names, path)?;
    Ok(names)
}

/// Copies the names. Allocates the list and the copies.
///
/// # Errors
///
/// [`AllocError`] if an allocation fails, only for at least one name.
pub fn copy_names(alloc: Global, names: &[BString]) -> Result<Vec<BString>, AllocError>
    ensures names { IfOk result (λ it. names_of it.items ≡ names_of names.now) }
    ensures allocates { OnErr result (names_of names.now ≢ []) }
{
    join_paths(alloc, &[], names)
}

/// Appends copies of the names of a path to a list.
fn push_names(alloc: Global, names: &mut Vec<BString>, path: &[BString]) -> Result<(), AllocError>
    ensures { OnOk result (names_of names.new.items
        ≡ names_of names.old.items ++ names_of path.now) }
{
    for name in path {
        names.push(BString::from_slice(alloc, name.as_bytes())?)?;
    }
    Ok(())
}

/// Rejects the first invalid name. Allocates nothing.
///
/// # Errors
///
/// - [`Error::EmptyPathComponent`] if the first invalid name is empty;
/// - [`Error::SlashInPathComponent`] if it contains a `/`.
#[tactic(auto, using(crate::proofs::ValidNames::are_names_take_more, crate::proofs::ValidNames::first_name_error_at))]
pub fn validate_names(path: &[BString]) -> Result<(), Error>
    ensures accepted { OnOk result (AreNames (names_of path.now)) }
    ensures error { IfErr result (IsFirstNameError (names_of path.now)) }
{
    for name in path {
        validate_name(name)?;
    }
    Ok(())
}

/// Rejects a name that is empty or contains a `/`.
fn validate_name(name: &BString) -> Result<(), Error>
    ensures accepted { OnOk result (IsEntryName (bstring_bytes name.now)) }
    ensures error { IfErr result (IsEntryNameError (bstring_bytes name.now)) }
{
    if name.is_empty() {
        return Err(Error::EmptyPathComponent);
    }
    if has_byte(name.as_bytes(), b'/') {
        return Err(Error::SlashInPathComponent);
    }
    Ok(())
}
