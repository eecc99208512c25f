//! Entries inserted into a directory of the empty root.

use crate::samples::{FIRST, is_root};
use gix_object::find::Never;
use gix_object::hash::Kind;
use gix_object::tree::EntryKind;
use gix_object::tree::editor::{Error, WriteError, Written};
use gix_object::{Tree, encode};
use gixobj_examples_edits::checkout::{CheckoutError, Planned, with_entries_at};
use gixobj_tests_api::samples::{id, path_of};
use std::alloc::Global;

/// Files with the first id at these paths. Fewer if memory runs out.
fn files_at(alloc: Global, paths: &[&[&str]]) -> Vec<Planned> {
    let mut files = Vec::new(alloc);
    for names in paths {
        let _ = files.push(Planned {
            path: path_of(alloc, names),
            kind: EntryKind::Blob,
            id: id(FIRST),
        });
    }
    files
}

/// Id that `git mktree --missing` prints for the files `a/b/hello.txt` and `a/hello.txt` with the first id.
const CHECKED_OUT: &[u8] = b"3365befd1a144ea91abbebb315dc3f3d7c071db2";

/// Id that `git mktree --missing` prints for the file `hello.txt` with the first id alone.
const ALONE: &[u8] = b"aaa96ced2d9a1c8e72c56b253a0e2fe78393feb7";

/// Names the result of a checkout.
fn outcome_name(checked_out: &Result<Written, CheckoutError<encode::Error>>) -> &'static str {
    match checked_out {
        Ok(written) if is_root(written, CHECKED_OUT, 3) => "both",
        Ok(written) if is_root(written, ALONE, 1) => "alone",
        Err(CheckoutError::Edit(Error::EmptyPathComponent)) => "empty name",
        Err(CheckoutError::Edit(Error::SlashInPathComponent)) => "slash in a name",
        Err(CheckoutError::Write(WriteError::Out(_))) => "not written",
        _ => "otherwise",
    }
}

/// Names the result of a checkout of files at paths below a directory.
fn outcome(alloc: Global, prefix: &[&str], paths: &[&[&str]]) -> &'static str {
    let (prefix, files) = (path_of(alloc, prefix), files_at(alloc, paths));
    let root = Tree::empty(alloc);
    let out = |tree: &Tree| tree.compute_id(alloc, Kind::Sha1);
    outcome_name(&with_entries_at(root, Never, Kind::Sha1, &prefix, &files, out))
}

/// Directories, the paths of files below them, and the results. The empty prefix is the root.
const ROWS: [(&[&str], &[&[&str]], &str); 5] = [
    (&["a"], &[&["hello.txt"], &["b", "hello.txt"]], "both"),
    (&[], &[&["hello.txt"]], "alone"),
    (&["a", ""], &[&["x"]], "empty name"),
    (&["a"], &[&["x/y"]], "slash in a name"),
    (&["a"], &[&["\0"]], "not written"),
];

#[test]
fn writes_files_below_directory_or_rejects_names(rt: HostRuntime) {
    for &(prefix, paths, wanted) in &ROWS {
        assert!(rt; outcome(rt.alloc(), prefix, paths) == wanted, "{wanted}");
    }
}
