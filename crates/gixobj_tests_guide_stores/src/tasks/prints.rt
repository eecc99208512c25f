//! Listings and changes to every depth, printed as git prints them.

use anyhow::Result;
use bstr::BString;
use gix_object::Find;
use gix_object::hash::ObjectId;
use gixobj_listings::differences::{Change, changes};
use gixobj_listings::listing::files_of;
use std::alloc::Global;
use std::io;
use std::io::Write;

/// Prints the files of a tree as `git ls-tree -r` does, but doesn't quote their paths.
pub fn print_files<S: Find, W: Write>(
    alloc: Global,
    store: &S,
    tree: ObjectId,
    out: &mut W,
) -> Result<()> {
    for file in files_of(alloc, store, tree, 1000)? {
        let mut digits = [0; 6];
        out.write_all(file.mode.as_bytes(&mut digits).as_bytes())?;
        let kind = if file.mode.is_commit() {
            "commit"
        } else {
            "blob"
        };
        write!(out, " {kind} {}\t", file.id)?;
        write_path(&file.path, out)?;
    }
    Ok(())
}

/// Prints the changes between two trees as `git diff-tree -r --name-status` does, with `M` for its `T`.
pub fn print_changes<S: Find, W: Write>(
    alloc: Global,
    store: &S,
    from: ObjectId,
    to: ObjectId,
    out: &mut W,
) -> Result<()> {
    for change in changes(alloc, store, from, to, 1000)? {
        out.write_all(letters(&change))?;
        write_path(&change.path, out)?;
    }
    Ok(())
}

/// Returns the letter of a change, and a tab.
fn letters(change: &Change) -> &'static [u8] {
    match (change.before, change.after) {
        (None, _) => b"A\t",
        (_, None) => b"D\t",
        _ => b"M\t",
    }
}

/// Writes the names of a path with slashes between them, and a newline.
fn write_path<W: Write>(path: &[BString], out: &mut W) -> io::Result<()> {
    for (index, name) in path.iter().enumerate() {
        if index > 0 {
            out.write_all(b"/")?;
        }
        out.write_all(name.as_bytes())?;
    }
    out.write_all(b"\n")
}
