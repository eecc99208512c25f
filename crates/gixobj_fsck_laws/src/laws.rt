//! Laws of git's messages. The contract of each function is the law, and its body is empty.
ghost use Rattle.std.specs.Prelude.{Bool, List, ℕ};
ghost use Rattle.gixobj_hash.specs.declared.hash.kind.Kind.{Kind};
ghost use Rattle.gixobj_fsck_laws.specs.CleanTrees.{HaveSmallModes, IsCleanTree, IsSafeTree};

/// A tree without a message decodes, is well-formed and re-encodes identically, if each mode has 16 bits.
///
/// No name in it is `.`, `..` or one that a file system takes for `.git`, no id is null, and each mode is one
/// that git writes. The condition is needed: of the mode `300644` git has no message, and it is encoded as
/// `100644`.
pub fn clean_tree_is_safe()
    ensures { (kind : Kind) (strict : Bool) (bytes : List ℕ) → IsCleanTree kind strict bytes
        → HaveSmallModes kind bytes → IsSafeTree kind strict bytes }
{}
