//! Paths, ids, trees, edits and steps that tests share.

use bstr::BString;
use gix_object::Tree;
use gix_object::actor::Signature;
use gix_object::date::Time;
use gix_object::hash::{Kind as HashKind, ObjectId};
use gix_object::import::Step;
use gix_object::tree::editor::Edit;
use gix_object::tree::{Entry, EntryKind};
use std::alloc::{AllocError, Global};

/// Decodes an id from hex. The null id for invalid hex.
pub fn id(hex: &[u8]) -> ObjectId {
    ObjectId::from_hex(hex).unwrap_or(ObjectId::null(HashKind::Sha1))
}

/// Copies bytes. Empty if memory runs out.
pub fn string_of(alloc: Global, bytes: &[u8]) -> BString {
    BString::from_slice(alloc, bytes).unwrap_or(BString::new(Vec::new(alloc)))
}

/// The path of these names.
fn names_of(alloc: Global, names: &[&str]) -> Result<Vec<BString>, AllocError> {
    let mut path = Vec::new(alloc);
    for name in names {
        path.push(BString::from_slice(alloc, name.as_bytes())?)?;
    }
    Ok(path)
}

/// The path of these names. Empty if memory runs out.
pub fn path_of(alloc: Global, names: &[&str]) -> Vec<BString> {
    names_of(alloc, names).unwrap_or(Vec::new(alloc))
}

/// An edit as a row: the names of its path and the hex digits of its id.
#[derive(Clone, Copy)]
pub enum Row {
    /// Inserts a file.
    File(&'static [&'static str], &'static [u8]),
    /// Inserts a directory.
    Directory(&'static [&'static str], &'static [u8]),
    /// Removes the entry at the path.
    Remove(&'static [&'static str]),
    /// Removes the file at the path.
    RemoveLeaf(&'static [&'static str]),
    /// Writes the tree.
    Write,
}

/// The names of a row's path. Empty for a write.
fn path_names(row: Row) -> &'static [&'static str] {
    match row {
        Row::File(names, _) => names,
        Row::Directory(names, _) => names,
        Row::Remove(names) => names,
        Row::RemoveLeaf(names) => names,
        Row::Write => &[],
    }
}

/// The edit of a row at its path.
fn edit_at(row: Row, path: Vec<BString>) -> Edit {
    match row {
        Row::File(_, hex) => Edit::Upsert {
            path,
            kind: EntryKind::Blob,
            id: id(hex),
        },
        Row::Directory(_, hex) => Edit::Upsert {
            path,
            kind: EntryKind::Tree,
            id: id(hex),
        },
        Row::Remove(_) => Edit::Remove { path },
        Row::RemoveLeaf(_) => Edit::RemoveLeaf { path },
        Row::Write => Edit::Write,
    }
}

/// The edits of these rows, in order.
fn list_edits(alloc: Global, rows: &[Row]) -> Result<Vec<Edit>, AllocError> {
    let mut edits = Vec::new(alloc);
    for row in rows {
        edits.push(edit_at(*row, names_of(alloc, path_names(*row))?))?;
    }
    Ok(edits)
}

/// The edits of these rows, in order. Empty if memory runs out.
pub fn edits_of(alloc: Global, rows: &[Row]) -> Vec<Edit> {
    list_edits(alloc, rows).unwrap_or(Vec::new(alloc))
}

/// A tree of the entries of these rows: kind, name and id.
pub fn try_tree_of(
    alloc: Global,
    rows: &[(EntryKind, &[u8], ObjectId)],
) -> Result<Tree, AllocError> {
    let mut entries = Vec::new(alloc);
    for (kind, name, id) in rows {
        entries.push(Entry {
            mode: (*kind).into(),
            filename: BString::from_slice(alloc, name)?,
            oid: *id,
        })?;
    }
    Ok(Tree { entries })
}

/// A tree of the entries of these rows: kind, name and id. Empty if memory runs out.
pub fn tree_of(alloc: Global, rows: &[(EntryKind, &[u8], ObjectId)]) -> Tree {
    try_tree_of(alloc, rows).unwrap_or(Tree::empty(alloc))
}

/// An actor.
pub fn actor(
    alloc: Global,
    name: &[u8],
    email: &[u8],
    time: Time,
) -> Result<Signature, AllocError> {
    let name = BString::from_slice(alloc, name)?;
    let email = BString::from_slice(alloc, email)?;
    Ok(Signature { name, email, time })
}

/// A step of these edits by `author`, committed by `A`, with the message `hi` and a newline.
fn signed_step(alloc: Global, author: Signature, edits: Vec<Edit>) -> Result<Step, AllocError> {
    let committer = actor(alloc, b"A", b"a@b", Time::default())?;
    let message = BString::from_slice(alloc, b"hi\n")?;
    Ok(Step {
        edits,
        author,
        committer,
        message,
    })
}

/// A step of these rows by `author`, at the Unix epoch.
pub fn step_by(alloc: Global, author: &str, rows: &[Row]) -> Result<Step, AllocError> {
    let edits = list_edits(alloc, rows)?;
    let author = actor(alloc, author.as_bytes(), b"a@b", Time::default())?;
    signed_step(alloc, author, edits)
}
