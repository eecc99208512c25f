//! Steps of imports, and checks that several tests share.

use crate::samples::{Row, id, step_by};
use gix_object::hash::{Kind as HashKind, ObjectId};
use gix_object::import::{ImportError, Imported, Importer, Step, import_all};
use gix_object::{Find, Keep, KeepCommit, Kind, Memory, compute_hash};
use std::alloc::{AllocError, Global};

/// A step: its author and its edits.
pub type StepRow = (&'static str, &'static [Row]);

const OLD: &[u8] = b"83baae61804e65cc73a7201a7252750c76066a30";

const NEW: &[u8] = b"1f7a7a472abf3dd9643fd615f6da379c4acb3e3a";

const OTHER: &[u8] = b"fa49b077972391ad58037050f2a75f74e3671e92";

/// Inserts a file; inserts another and replaces the first; inserts the first version in a directory.
pub const STEPS: [StepRow; 3] = [
    ("A", &[Row::File(&["test.txt"], OLD)]),
    (
        "A",
        &[
            Row::File(&["new.txt"], OTHER),
            Row::File(&["test.txt"], NEW),
        ],
    ),
    ("A", &[Row::File(&["bak", "test.txt"], OLD)]),
];

/// Ids that `git commit-tree` prints for the trees of the three steps.
pub const COMMITS: [&str; 3] = [
    "8101fb84348a61a9b06d3e3c905f1ff7a24b53d9",
    "20167b493033505114eaa28805c52661bd76839e",
    "fe539a6ab0adcb87272ce01296f0adc5e148a1d6",
];

/// The steps of these rows.
pub fn try_steps_of(alloc: Global, rows: &[StepRow]) -> Result<Vec<Step>, AllocError> {
    let mut steps = Vec::new(alloc);
    for (author, edits) in rows {
        steps.push(step_by(alloc, author, edits)?)?;
    }
    Ok(steps)
}

/// The steps of these rows. Empty if memory runs out.
pub fn steps_of(alloc: Global, rows: &[StepRow]) -> Vec<Step> {
    try_steps_of(alloc, rows).unwrap_or(Vec::new(alloc))
}

/// An importer into an empty store, by SHA-1.
pub fn importer_of(alloc: Global) -> Importer<Memory> {
    Importer::new(alloc, Memory::new(alloc), HashKind::Sha1)
}

/// The number of an import error. 0 if there is none.
fn number(error: Option<&ImportError>) -> u8 {
    match error {
        None => 0,
        Some(ImportError::WriteInStep) => 1,
        Some(ImportError::Edit { .. }) => 2,
        Some(ImportError::Write(_)) => 3,
        Some(ImportError::NotKept(_)) => 4,
        Some(ImportError::Commit(_)) => 5,
        Some(ImportError::OutOfMemory) => 6,
        Some(ImportError::Failed) => 7,
    }
}

/// What an import leaves: the imported steps, and the error at which it stops.
#[derive(Drop)]
pub struct Outcome {
    pub done: Vec<Imported>,
    pub error: Option<ImportError>,
}

impl Outcome {
    /// Whether the steps are imported as these commits, up to an error with this number.
    pub fn has(&self, commits: &[&str], error: u8) -> bool {
        are_commits(&self.done, commits) && number(self.error.as_ref()) == error
    }
}

/// Imports steps.
pub fn import<S: Keep + KeepCommit>(importer: &mut Importer<S>, steps: &[Step]) -> Outcome {
    match import_all(importer, steps) {
        Ok(done) => Outcome { done, error: None },
        Err(stopped) => Outcome {
            done: stopped.done,
            error: Some(stopped.error),
        },
    }
}

/// Imports the steps of these rows.
pub fn import_rows<S: Keep + KeepCommit>(
    alloc: Global,
    importer: &mut Importer<S>,
    rows: &[StepRow],
) -> Outcome {
    import(importer, &steps_of(alloc, rows))
}

/// The number of the error of a step of these rows, or 0 if it is imported. `None` if memory runs out.
pub fn outcome_by<S: Keep + KeepCommit>(
    alloc: Global,
    importer: &mut Importer<S>,
    author: &str,
    rows: &[Row],
) -> Option<u8> {
    let step = step_by(alloc, author, rows).ok()?;
    let error = importer.step(&step).err();
    Some(number(error.as_ref()))
}

/// The size of the commit that the store has under its id. `None` also if memory runs out.
pub fn kept_commit<S: Find>(alloc: Global, store: &S, id: ObjectId) -> Option<usize> {
    let mut buffer = Vec::new(alloc);
    match store.try_find(id.as_oid(), &mut buffer) {
        Ok(Some(found))
            if found.kind == Kind::Commit
                && compute_hash(found.object_hash, found.kind, found.bytes) == id => {
            Some(found.bytes.len())
        }
        _ => None,
    }
}

/// Whether the store has all imported commits.
pub fn has_all<S: Find>(alloc: Global, store: &S, imported: &[Imported]) -> bool {
    for it in imported {
        if kept_commit(alloc, store, it.commit).is_none() {
            return false;
        }
    }
    true
}

/// Whether the commits have these ids.
pub fn are_commits(imported: &[Imported], commits: &[&str]) -> bool {
    for (it, hex) in imported.iter().zip(commits) {
        if it.commit != id(hex.as_bytes()) {
            return false;
        }
    }
    imported.len() == commits.len()
}

/// Whether these are the first commits of the three steps.
pub fn are_first_commits(imported: &[Imported]) -> bool {
    let count = imported.len();
    count <= COMMITS.len() && are_commits(imported, COMMITS.split_at(count).0)
}
