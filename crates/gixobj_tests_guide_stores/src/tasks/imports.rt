//! Imports a history.

use gix_object::Memory;
use gix_object::hash::{Kind as HashKind, ObjectId};
use gix_object::import::{ImportError, Importer, Step, import_all};
use std::alloc::Global;

/// Imports the steps, each commit with the one before it as its parent. Returns the last commit, if any.
pub fn tip(alloc: Global, steps: &[Step]) -> Result<Option<ObjectId>, ImportError> {
    let mut importer = Importer::new(alloc, Memory::new(alloc), HashKind::Sha1);
    match import_all(&mut importer, steps) {
        Ok(mut imported) => Ok(imported.pop().map(|last| last.commit)),
        Err(stopped) => Err(stopped.error),
    }
}
