//! Imports in which each call to keep a tree or a commit fails in turn.

use super::samples::{COMMITS, STEPS, are_first_commits, has_all, import_rows, outcome_by};
use gix_object::hash::Kind as HashKind;
use gix_object::import::{ImportError, Importer};
use gix_object::{KeepError, Memory};
use gixobj_tests_stores::failing::{Failing, OFFLINE};
use std::alloc::Global;

/// The calls that fail; how many steps are imported before; how many calls are made, and how many of them
/// keep a commit. The steps keep one tree, one tree, and two trees, each with a commit.
const ROWS: [(&[u64], usize, (u64, u64)); 7] = [
    (&[1], 0, (1, 0)),
    (&[2], 0, (2, 1)),
    (&[3], 1, (3, 1)),
    (&[4], 1, (4, 2)),
    (&[5], 2, (5, 2)),
    (&[6], 2, (6, 2)),
    (&[7], 2, (7, 3)),
];

/// An importer into an empty store in which the calls to keep something at these positions fail.
fn failing(alloc: Global, rejected: &'static [u64]) -> Importer<Failing> {
    let store = Failing::new(alloc, Memory::new(alloc), &[], rejected);
    Importer::new(alloc, store, HashKind::Sha1)
}

/// Whether this many calls were made to keep something, and to keep a commit.
fn has_counts(store: &Failing, counts: (u64, u64)) -> bool {
    (store.keeps(), store.commits()) == counts
}

/// Whether an import stops after `before` steps, at the store's error, and these calls were made. The importer
/// rejects a later step without a call, and the store has the commits.
fn stops(alloc: Global, rejected: &'static [u64], before: usize, counts: (u64, u64)) -> bool {
    let mut importer = failing(alloc, rejected);
    let outcome = import_rows(alloc, &mut importer, &STEPS);
    let is_offline = matches!(&outcome.error,
        Some(ImportError::NotKept(KeepError::Store(it))) if it.as_bytes() == OFFLINE);
    is_offline
        && outcome.done.len() == before
        && are_first_commits(&outcome.done)
        && has_counts(importer.store_mut(), counts)
        && outcome_by(alloc, &mut importer, "A", &[]) == Some(7)
        && has_counts(importer.store_mut(), counts)
        && has_all(alloc, importer.store_mut(), &outcome.done)
}

#[test]
fn stops_at_each_failed_keep(rt: HostRuntime) {
    for &(rejected, before, counts) in &ROWS {
        assert!(rt;
            stops(rt.alloc(), rejected, before, counts),
            "at {rejected:?}"
        );
    }
}

#[test]
fn imports_steps_if_no_keep_fails(rt: HostRuntime) {
    let alloc = rt.alloc();
    let mut importer = failing(alloc, &[8]);
    assert!(rt; import_rows(alloc, &mut importer, &STEPS).has(&COMMITS, 0));
    assert!(rt; has_counts(importer.store_mut(), (7, 3)));
}
