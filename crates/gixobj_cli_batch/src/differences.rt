//! The command `diff`.
ghost use Rattle.std.specs.Prelude.{◌≡◌, ◌++◌, IfErr, IfOk, OnOk};
ghost use Rattle.std.specs.List.{flat_map};
ghost use Rattle.std.specs.Option.{option_map};
ghost use Rattle.gix_object.specs.Memory.{memory_objects};
ghost use Rattle.gix_object.specs.Mode.{kind_of_mode, mode_bits};
ghost use Rattle.gixobj_cli_batch.specs.Lines.{change_letter, change_line, id_field_next_to, id_fields, mode_field};
ghost use Rattle.gixobj_cli_batch.specs.Lines.{mode_fields, type_of_kind, version_view};
ghost use Rattle.gixobj_cli_batch.specs.Reports.{IsDiffError, PrintsChanges};

use crate::fault::Fault;
use crate::files::{MAX_DEPTH, tree_of};
use crate::lines::{push_id, push_mode, push_path};
use crate::report::Report;
use gix_object::Memory;
use gix_object::hash::ObjectId;
use gix_object::tree::EntryKind;
use gixobj_listings::differences::{Change, Version, changes};
use std::alloc::{AllocError, Global};

/// Lists the changes from a commit or a tree to another, a line for each.
pub(crate) fn list_changes(
    alloc: Global,
    store: &Memory,
    from: ObjectId,
    to: ObjectId,
) -> Result<Report, Fault>
    ensures printed { IfOk result (λ report. PrintsChanges (memory_objects store.now) from to
        report.lines.items report.fault) }
    ensures error { IfErr result (IsDiffError (memory_objects store.now) from to) }
{
    let before = tree_of(alloc, store, from)?;
    let after = tree_of(alloc, store, to)?;
    let changes = changes(alloc, store, before, after, MAX_DEPTH)?;
    let lines = lines_of(alloc, &changes)?;
    let fault = None;
    Ok(Report { lines, fault })
}

/// Returns the lines of changes.
fn lines_of(alloc: Global, changes: &[Change]) -> Result<Vec<u8>, AllocError>
    ensures { IfOk result (λ lines. lines.items ≡ flat_map change_line changes.now) }
{
    let mut lines = Vec::new(alloc);
    for change in changes {
        push_change(&mut lines, change)?;
    }
    Ok(lines)
}

/// Appends the line of a change.
fn push_change(lines: &mut Vec<u8>, change: &Change) -> Result<(), AllocError>
    ensures { OnOk result (lines.new.items ≡ lines.old.items ++ change_line change.now) }
{
    push_modes(lines, change.before, change.after)?;
    push_ids(lines, change.before, change.after)?;
    lines.extend_from_slice(letter_of(change.before, change.after))?;
    lines.push(b'\t')?;
    push_path(lines, &change.path)?;
    lines.push(b'\n')?;
    Ok(())
}

/// Appends a colon and both modes, with a space after each.
fn push_modes(
    lines: &mut Vec<u8>,
    before: Option<Version>,
    after: Option<Version>,
) -> Result<(), AllocError>
    ensures { OnOk result (lines.new.items ≡ lines.old.items
        ++ mode_fields (option_map version_view before) (option_map version_view after)) }
{
    lines.push(b':')?;
    push_mode_or_zeros(lines, before)?;
    lines.push(b' ')?;
    push_mode_or_zeros(lines, after)?;
    lines.push(b' ')?;
    Ok(())
}

/// Appends both ids, with a space after each.
fn push_ids(
    lines: &mut Vec<u8>,
    before: Option<Version>,
    after: Option<Version>,
) -> Result<(), AllocError>
    ensures { OnOk result (lines.new.items ≡ lines.old.items
        ++ id_fields (option_map version_view before) (option_map version_view after)) }
{
    push_id_or_null(lines, before, after)?;
    lines.push(b' ')?;
    push_id_or_null(lines, after, before)?;
    lines.push(b' ')?;
    Ok(())
}

/// Appends the mode of a file, or zeros for none.
fn push_mode_or_zeros(lines: &mut Vec<u8>, version: Option<Version>) -> Result<(), AllocError>
    ensures { OnOk result (lines.new.items
        ≡ lines.old.items ++ mode_field (option_map version_view version)) }
{
    match version {
        Some(version) => push_mode(lines, version.mode),
        None => lines.extend_from_slice(b"000000"),
    }
}

/// Appends the id of a file, or the null id for none, of the hash function of the other file.
fn push_id_or_null(
    lines: &mut Vec<u8>,
    version: Option<Version>,
    other: Option<Version>,
) -> Result<(), AllocError>
    ensures { OnOk result (lines.new.items ≡ lines.old.items
        ++ id_field_next_to (option_map version_view version) (option_map version_view other)) }
{
    match (version, other) {
        (Some(version), _) => push_id(lines, version.id),
        (None, Some(other)) => push_id(lines, ObjectId::null(other.id.kind())),
        (None, None) => Ok(()),
    }
}

/// The letter of a change: added, deleted, of another type, or modified.
fn letter_of(before: Option<Version>, after: Option<Version>) -> &'static [u8]
    ensures { result.now
        ≡ change_letter (option_map version_view before) (option_map version_view after) }
{
    match (before, after) {
        (None, _) => b"A",
        (Some(_), None) => b"D",
        (Some(old), Some(new)) => match (type_of(old), type_of(new)) {
            (EntryKind::Blob, EntryKind::Blob)
            | (EntryKind::Link, EntryKind::Link)
            | (EntryKind::Commit, EntryKind::Commit)
            | (EntryKind::Tree, EntryKind::Tree) => b"M",
            _ => b"T",
        },
    }
}

/// The kind of a file, without its permissions.
fn type_of(version: Version) -> EntryKind
    ensures { result ≡ type_of_kind (kind_of_mode (mode_bits version.mode)) }
{
    match version.mode.kind() {
        EntryKind::BlobExecutable => EntryKind::Blob,
        kind => kind,
    }
}
