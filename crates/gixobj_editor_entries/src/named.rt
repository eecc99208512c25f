//! Items of sorted lists.
ghost use Rattle.std.specs.Prelude.{◌≡◌, ℕ, Bool, IsFalse, List, true};

use gixobj_tree_entries::Entry;

/// An item with a name, of a directory or of a file.
///
/// Its key is the name, with `/` appended for a directory.
pub trait Named: Drop {
    ghost name_of: { Self → List ℕ };

    ghost is_tree_of: { Self → Bool };

    /// Returns the name.
    fn name(&self) -> &[u8]
        ensures { result.now ≡ name_of self.now };

    /// Returns `true` if the item is a directory.
    fn is_tree(&self) -> bool
        ensures { result ≡ is_tree_of self.now };

    /// Returns `false` only if each item is a directory.
    fn has_files() -> bool
        ensures { IsFalse result → (x : Self) → is_tree_of x ≡ true };
}

impl Named for Entry {
    ghost use Rattle.gixobj_tree_entries.specs.Mode.{is_tree_mode};

    ghost name_of = { λ e. e.name };

    ghost is_tree_of = { λ e. is_tree_mode e.mode };

    #[inline(always)]
    fn name(&self) -> &[u8] {
        self.filename.as_bytes()
    }

    #[inline(always)]
    fn is_tree(&self) -> bool {
        self.mode.is_tree()
    }

    #[inline(always)]
    fn has_files() -> bool {
        true
    }
}
