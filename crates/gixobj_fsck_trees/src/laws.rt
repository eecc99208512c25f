//! Laws of the messages about trees.
ghost use Rattle.gixobj_fsck_trees.specs.TreeMessages.{HaveUniqueMessages};

use gixobj_hash::hash::Kind;

/// The messages about the bytes of a tree are unique.
pub fn tree_messages_are_unique(bytes: &[u8], hash_kind: Kind, strict: bool)
    ensures { HaveUniqueMessages hash_kind strict bytes.now }
{}
