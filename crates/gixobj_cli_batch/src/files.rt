//! The command `ls`.
ghost use Rattle.std.specs.Prelude.{◌≡◌, ◌++◌, IfErr, IfOk, OnOk};
ghost use Rattle.std.specs.List.{flat_map};
ghost use Rattle.gix_object.specs.Memory.{memory_objects};
ghost use Rattle.gix_object.specs.Mode.{kind_of_mode, mode_bits};
ghost use Rattle.gixobj_cli_batch.specs.Lines.{file_line, printed_kind};
ghost use Rattle.gixobj_cli_batch.specs.Reports.{IsFilesError, IsUnreadCommit, PrintsFiles};
ghost use Rattle.gixobj_cli_batch.specs.Trees.{IsTreeOf};

use crate::fault::Fault;
use crate::lines::{push_id, push_mode, push_path};
use crate::report::Report;
use gix_object::hash::ObjectId;
use gix_object::tree::{EntryKind, EntryMode};
use gix_object::{FindExt, FindHeader, Kind, Memory};
use gixobj_listings::listing::{File, files_of};
use std::alloc::{AllocError, Global};

/// The maximum number of names in a path.
pub(crate) const MAX_DEPTH: u32 = 1024;

/// Lists the files of a commit or a tree, a line for each.
pub(crate) fn list_files(alloc: Global, store: &Memory, id: ObjectId) -> Result<Report, Fault>
    ensures printed { IfOk result (λ report. PrintsFiles (memory_objects store.now) id
        report.lines.items report.fault) }
    ensures error { IfErr result (IsFilesError (memory_objects store.now) id) }
{
    let root = tree_of(alloc, store, id)?;
    let files = files_of(alloc, store, root, MAX_DEPTH)?;
    let lines = lines_of(alloc, &files)?;
    let fault = None;
    Ok(Report { lines, fault })
}

/// Returns the lines of files.
fn lines_of(alloc: Global, files: &[File]) -> Result<Vec<u8>, AllocError>
    ensures { IfOk result (λ lines. lines.items ≡ flat_map file_line files.now) }
{
    let mut lines = Vec::new(alloc);
    for file in files {
        push_file(&mut lines, file)?;
    }
    Ok(lines)
}

/// Returns the id of the tree of a commit, or the id itself if it names no commit.
pub(crate) fn tree_of(alloc: Global, store: &Memory, id: ObjectId) -> Result<ObjectId, Fault>
    ensures found { IfOk result (IsTreeOf (memory_objects store.now) id) }
    ensures error { IfErr result (IsUnreadCommit (memory_objects store.now) id) }
{
    match store.try_header(id.as_oid()) {
        Ok(Some(header)) if header.kind == Kind::Commit => {}
        _ => return Ok(id),
    }
    let mut buffer = Vec::new(alloc);
    match store.find_commit(alloc, id.as_oid(), &mut buffer) {
        Ok(commit) => Ok(commit.tree()),
        Err(cause) => Err(Fault::Commit { id, cause }),
    }
}

/// Appends the line of a file.
fn push_file(lines: &mut Vec<u8>, file: &File) -> Result<(), AllocError>
    ensures { OnOk result (lines.new.items ≡ lines.old.items ++ file_line file.now) }
{
    push_mode(lines, file.mode)?;
    lines.push(b' ')?;
    lines.extend_from_slice(kind_of_file(file.mode))?;
    lines.push(b' ')?;
    push_id(lines, file.id)?;
    lines.push(b'\t')?;
    push_path(lines, &file.path)?;
    lines.push(b'\n')?;
    Ok(())
}

/// The kind of the object that an entry of this mode names.
fn kind_of_file(mode: EntryMode) -> &'static [u8]
    ensures { result.now ≡ printed_kind (kind_of_mode (mode_bits mode)) }
{
    match mode.kind() {
        EntryKind::Tree => b"tree",
        EntryKind::Commit => b"commit",
        _ => b"blob",
    }
}
