//! The kinds of tree entries.
ghost use Rattle.std.specs.Prelude.{◌≡◌};
ghost use Rattle.bstr.specs.BStr.{bstr_bytes};
ghost use Rattle.gixobj_tree_entries.specs.Mode.{mode_of_kind, encode_mode};

use bstr::BStr;

/// The kind of a tree entry: one for each mode that git itself writes. [`crate::EntryMode::kind`] returns
/// it.
#[derive(Clone, Copy, Debug, PartialEq, Eq, PartialOrd, Ord, Hash)]
pub enum EntryKind {
    /// A directory, `040000`.
    Tree = 0o040000,
    /// A file, `100644`.
    Blob = 0o100644,
    /// A file that its owner may execute, `100755`.
    BlobExecutable = 0o100755,
    /// A symbolic link, `120000`.
    Link = 0o120000,
    /// A submodule's commit, `160000`.
    Commit = 0o160000,
}

impl EntryKind {
    /// Returns the mode of the kind as trees have it: octal digits, five for a tree and six for all others.
    /// Allocates nothing.
    pub fn as_octal_str(&self) -> BStr<'static>
        ensures { bstr_bytes result ≡ encode_mode (mode_of_kind self.now) }
    {
        BStr::new(match self {
            EntryKind::Tree => b"40000",
            EntryKind::Blob => b"100644",
            EntryKind::BlobExecutable => b"100755",
            EntryKind::Link => b"120000",
            EntryKind::Commit => b"160000",
        })
    }
}
