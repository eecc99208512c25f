//! Imports of three steps, with a rejected one and one after it. `git hash-object`, `git mktree` and `git
//! commit-tree` print the ids, in a repository of either object format.

use super::samples::{
    COMMITS, Outcome, STEPS, StepRow, import_rows, importer_of, kept_commit, outcome_by,
};
use crate::samples::{Row, id};
use gix_object::Memory;
use gix_object::hash::Kind as HashKind;
use gix_object::import::Importer;
use std::alloc::Global;

/// The tree of each step, the number of emitted trees, and the size of the commit.
const SHA1: [(&str, usize, usize); 3] = [
    ("d8329fc1cc938780ffdd9f94e0d364e0ea74f579", 1, 99),
    ("0155eb4229851634a0f03eb265b69f5a2d56f341", 1, 147),
    ("3c4e9cd789d88d8d89c1073707c3585e41b0e614", 2, 147),
];

const SHA256: [(&str, usize, usize); 3] = [
    (
        "36704227b464fc81b5853b4e4d4e2aa15554712f915e8967f4220654d32afa46",
        1,
        123,
    ),
    (
        "3175307f513a6708ea5f1f21a0762b064daa0f5d15b02b2d739b6ece20bccfaf",
        1,
        195,
    ),
    (
        "951b6afd724a1cbaed50fab9dd174523471e0c951582cc5678940a7c5f66fd69",
        2,
        195,
    ),
];

const COMMITS_256: [&str; 3] = [
    "2e00c87cd217a620d0b8729ec62b6bccd7179db7bd44373b60d13dd00aa4badd",
    "3c12ab5435312676e48baaf8d54c830853af0bd55ffa7187ba0c7fc775bb464e",
    "053717575a828a7b6e1cdaaed7baa1e3d1552609f87e8e645014269041bcdc9e",
];

const OLD: &[u8] = b"58a67ed1c161a4e89a110968310fe31e39920ef68d4c7c7e0d6695797533f50d";

const NEW: &[u8] = b"bd965fae20eb0dd136c5fb90b7c99ea1863ab46bb9a2647be049f38751749e61";

const OTHER: &[u8] = b"6d5fd291bb0f67444e99ab492f1bf1fcdf5dca09dab24cf331e05111b4cfc1a3";

/// The three steps with ids by SHA-256.
const STEPS_256: [StepRow; 3] = [
    ("A", &[Row::File(&["test.txt"], OLD)]),
    (
        "A",
        &[
            Row::File(&["new.txt"], OTHER),
            Row::File(&["test.txt"], NEW),
        ],
    ),
    ("A", &[Row::File(&["bak", "test.txt"], OLD)]),
];

/// Whether all steps are imported as these trees and commits, and the store has the commits.
fn is_imported(
    alloc: Global,
    store: &Memory,
    outcome: &Outcome,
    rows: &[(&str, usize, usize)],
    commits: &[&str],
) -> bool {
    for (it, &(tree, count, size)) in outcome.done.iter().zip(rows) {
        if it.written.id != id(tree.as_bytes())
            || it.written.trees.len() != count
            || kept_commit(alloc, store, it.commit) != Some(size)
        {
            return false;
        }
    }
    outcome.has(commits, 0)
}

/// The rejected ones change nothing, and an import of no steps does nothing.
#[test]
fn imports_three_steps_and_rejects_two(rt: HostRuntime) {
    let alloc = rt.alloc();
    let mut importer = importer_of(alloc);
    assert!(rt; import_rows(alloc, &mut importer, &[]).has(&[], 0));
    let outcome = import_rows(alloc, &mut importer, &STEPS);
    assert!(rt; outcome_by(alloc, &mut importer, "A>", &[]) == Some(5));
    assert!(rt; outcome_by(alloc, &mut importer, "A", &[]) == Some(7));
    assert!(rt; is_imported(alloc, importer.store_mut(), &outcome, &SHA1, &COMMITS));
}

#[test]
fn imports_three_steps_by_sha256(rt: HostRuntime) {
    let alloc = rt.alloc();
    let mut importer = Importer::new(alloc, Memory::new(alloc), HashKind::Sha256);
    let outcome = import_rows(alloc, &mut importer, &STEPS_256);
    assert!(rt; is_imported(alloc, importer.store_mut(), &outcome, &SHA256, &COMMITS_256));
}
