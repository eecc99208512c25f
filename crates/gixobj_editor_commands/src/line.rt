//! Parsing of one line of a script.
ghost use Rattle.std.specs.Prelude.{◌≡◌, ◌≢◌, ℕ, List, codes, IfOk, IfNone, IfSome, MatchOption, OnErr};
ghost use Rattle.gixobj_editor_commands.specs.Views.{command_view, edit_view};
ghost use Rattle.gixobj_hash.specs.declared.hash.object_id.ObjectId.{ObjectId};
ghost use Rattle.gixobj_editor_commands.specs.Lines.{HasCommand, HasEdit, HasNoCommand, HasNoEdit, DecodesToCommand};
ghost use Rattle.gixobj_editor_commands.specs.Lines.{DecodesToEdit, IsEntryAt, IsHexOfId, keyword_and};
ghost use Rattle.gixobj_tree_entries.specs.Mode.{entry_kind_name};
ghost use Rattle.gixobj_tree_entries.specs.declared.entry_kind.EntryKind.{EntryKind};

use crate::path::names_of_path;
use crate::{Command, Edit};
use gixobj_hash::OutOfMemory;
use gixobj_hash::hash::{Kind, ObjectId};
use gixobj_hash::parse::{hex_hash, id_of_hex};
use gixobj_hash::split::split_at_byte;
use gixobj_parse::parse::after_name;
use gixobj_tree::Tree;
use gixobj_tree::tree::EntryKind;
use std::alloc::Global;

/// Parses a line with ids of `hash`: an edit, `at PREFIX EDIT` with a prefix without a space, or `root`; else
/// `None`.
///
/// Allocates the names of paths.
///
/// # Errors
///
/// [`OutOfMemory`] if an allocation fails, only if the line is a command.
pub fn parse_command(alloc: Global, line: &[u8], hash: Kind) -> Result<Option<Command>, OutOfMemory>
    ensures found { IfOk result (λ it. MatchOption it (HasNoCommand hash line.now)
        (λ command. DecodesToCommand hash line.now (command_view command))) }
    ensures error { OnErr result (HasCommand hash line.now) }
{
    if let Some(rest) = after_name(line, b"at") {
        return parse_edit_at(alloc, rest, hash);
    }
    if let b"root" = line {
        return Ok(Some(Command::SetRoot(Tree::empty(alloc))));
    }
    match parse_edit(alloc, line, hash)? {
        Some(edit) => Ok(Some(Command::Edit(edit))),
        None => Ok(None),
    }
}

/// Parses the rest of a line after `at` and a space.
fn parse_edit_at(alloc: Global, bytes: &[u8], hash: Kind) -> Result<Option<Command>, OutOfMemory>
    ensures found { IfOk result (λ it. MatchOption it
        (HasNoCommand hash (keyword_and (codes "at") bytes.now))
        (λ command. DecodesToCommand hash (keyword_and (codes "at") bytes.now) (command_view command))) }
    ensures error { OnErr result (HasCommand hash (keyword_and (codes "at") bytes.now)) }
{
    let Some((prefix, rest)) = split_at_byte(bytes, b' ') else {
        return Ok(None);
    };
    let Some(edit) = parse_edit(alloc, rest, hash)? else {
        return Ok(None);
    };
    let prefix = names_of_path(alloc, prefix)?;
    let mut edits = Vec::new(alloc);
    edits.push(edit)?;
    Ok(Some(Command::At { prefix, edits }))
}

/// Parses an edit, `upsert KIND HEX PATH`, `remove PATH`, `leaf PATH` or `write`; else `None`.
///
/// Allocates the names of the path.
///
/// # Errors
///
/// [`OutOfMemory`] if an allocation fails, only if the bytes are an edit.
pub fn parse_edit(alloc: Global, bytes: &[u8], hash: Kind) -> Result<Option<Edit>, OutOfMemory>
    ensures found { IfOk result (λ it. MatchOption it (HasNoEdit hash bytes.now)
        (λ edit. DecodesToEdit hash bytes.now (edit_view edit))) }
    ensures error { OnErr result (HasEdit hash bytes.now) }
{
    if let Some(entry) = after_name(bytes, b"upsert") {
        return parse_upsert(alloc, entry, hash);
    }
    if let Some(path) = after_name(bytes, b"remove") {
        let path = names_of_path(alloc, path)?;
        return Ok(Some(Edit::Remove { path }));
    }
    if let Some(path) = after_name(bytes, b"leaf") {
        let path = names_of_path(alloc, path)?;
        return Ok(Some(Edit::RemoveLeaf { path }));
    }
    match bytes {
        b"write" => Ok(Some(Edit::Write)),
        _ => Ok(None),
    }
}

/// Parses the rest of an edit after `upsert` and a space.
fn parse_upsert(alloc: Global, entry: &[u8], hash: Kind) -> Result<Option<Edit>, OutOfMemory>
    ensures found { IfOk result (λ it. MatchOption it
        (HasNoEdit hash (keyword_and (codes "upsert") entry.now))
        (λ edit. DecodesToEdit hash (keyword_and (codes "upsert") entry.now) (edit_view edit))) }
    ensures error { OnErr result (HasEdit hash (keyword_and (codes "upsert") entry.now)) }
{
    let Some((kind, id, path)) = entry_parts(entry, hash) else {
        return Ok(None);
    };
    let path = names_of_path(alloc, path)?;
    Ok(Some(Edit::Upsert { path, kind, id }))
}

/// Parses `KIND HEX PATH` into its kind, its id and its path, or returns `None`. Allocates nothing.
fn entry_parts(entry: &[u8], hash: Kind) -> Option<(EntryKind, ObjectId, &[u8])>
    ensures found { IfSome result (λ it. IsEntryAt hash entry.now it.0 it.1 it.2.now) }
    ensures none { IfNone result ((kind : EntryKind) (id : ObjectId) (path : List ℕ)
        → ¬ IsEntryAt hash entry.now kind id path) }
{
    let Some((token, after)) = split_at_byte(entry, b' ') else {
        return None;
    };
    let Some(kind) = kind_of_name(token) else {
        return None;
    };
    let Some((hex, path)) = split_at_byte(after, b' ') else {
        return None;
    };
    let Some(id) = id_of_kind(hex, hash) else {
        return None;
    };
    Some((kind, id, path))
}

/// Returns the entry kind with this name, or `None`.
fn kind_of_name(token: &[u8]) -> Option<EntryKind>
    ensures { MatchOption result ((kind : EntryKind) → token.now ≢ entry_kind_name kind)
        (λ kind. token.now ≡ entry_kind_name kind) }
{
    match token {
        b"tree" => Some(EntryKind::Tree),
        b"blob" => Some(EntryKind::Blob),
        b"exe" => Some(EntryKind::BlobExecutable),
        b"link" => Some(EntryKind::Link),
        b"commit" => Some(EntryKind::Commit),
        _ => None,
    }
}

/// Decodes the hex digits of an id of `hash`, in either case, or returns `None`.
fn id_of_kind(hex: &[u8], hash: Kind) -> Option<ObjectId>
    ensures { MatchOption result ((id : ObjectId) → ¬ IsHexOfId hash hex.now id)
        (λ id. IsHexOfId hash hex.now id) }
{
    let hex = hex_hash(hex, hash)?;
    Some(id_of_hex(hex))
}
