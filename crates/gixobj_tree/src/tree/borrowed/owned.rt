//! Owned copies of borrowed trees.
ghost use Rattle.std.specs.Prelude.{◌≡◌, ◌≢◌, [], IfErr, IfOk, OnOk};
ghost use Rattle.gixobj_tree.specs.TreeViews.{tree_entries};

use super::TreeRef;
use crate::tree::Tree;
use gixobj_hash::OutOfMemory;
use std::alloc::Global;

/// Conversion
impl TreeRef<'_> {
    /// Copies the tree into an owned [`Tree`]. The list and the names allocate.
    ///
    /// # Errors
    ///
    /// [`OutOfMemory`] if an allocation failed, only for a tree with entries.
    pub fn into_owned(self, alloc: Global) -> Result<Tree, OutOfMemory>
        ensures owned { IfOk result (λ tree. tree ≡ tree_entries self.entry) }
        ensures error { IfErr result (λ _. tree_entries self.entry ≢ []) }
    {
        self.to_owned(alloc)
    }

    /// Copies the tree into an owned [`Tree`]. The list and the names allocate.
    ///
    /// # Errors
    ///
    /// [`OutOfMemory`] if an allocation failed, only for a tree with entries.
    pub fn to_owned(&self, alloc: Global) -> Result<Tree, OutOfMemory>
        ensures owned { IfOk result (λ tree. tree ≡ tree_entries self.now) }
        ensures error { IfErr result (λ _. tree_entries self.now ≢ []) }
    {
        let mut entries = Vec::with_capacity(alloc, self.entries.len())?;
        for entry in &self.entries {
            entries.push(entry.into_owned(alloc)?)?;
        }
        Ok(Tree { entries })
    }
}
