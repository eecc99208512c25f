//! New directories along a path: a loop makes them, from the last to the first.
ghost use Rattle.std.specs.Prelude.{◌≡◌, ◌≢◌, ◌∷◌, [], IfOk, None};
ghost use Rattle.std.specs.List.{AllByRecursion};
ghost use Rattle.bstr.specs.Owned.{bstring_bytes};
ghost use Rattle.gixobj_tree.specs.WellFormed.{IsEntryName};
ghost use Rattle.gixobj_tree_entries.specs.Mode.{mode_bits};
ghost use Rattle.gixobj_editor_files.specs.Edits.{ensured_dirs, upserted_dirs, with_directory};
ghost use Rattle.gixobj_editor_files.specs.Files.{Path};
ghost use Rattle.gixobj_editor_open.specs.Paths.{names_of};
ghost use Rattle.gixobj_editor_open.specs.Nested.{dirs_of, opened};
ghost use Rattle.gixobj_editor_open.specs.NewDirectories.{AreNew, nested_dirs};

use crate::open::{Children, Open, add_directory};
use bstr::BString;
use gixobj_editor_files::open_entries::Entries;
use gixobj_hash::hash::ObjectId;
use gixobj_tree::Tree;
use gixobj_tree::tree::EntryMode;
use std::alloc::{AllocError, Global};

/// Makes the directories along a path, each in the one above, with an entry of the last name in the last.
pub(crate) fn new_with_entry(
    alloc: Global,
    path: &[BString],
    mode: EntryMode,
    id: ObjectId,
    null: ObjectId,
) -> Result<Open, AllocError>
    requires names { AllByRecursion IsEntryName (names_of path.now) }
    requires non_empty { path.now ≢ [] }
    ensures dirs { IfOk result (λ it. (at : Path) → dirs_of it at
        ≡ upserted_dirs (names_of path.now) (mode_bits mode) id null (λ _. None) at) }
    ensures bases { IfOk result (λ it. AreNew it) }
{
    let Some((name, before)) = path.split_last() else {
        unreachable!()
    };
    let inner = with_entry(alloc, name, mode, id)?;
    nested(alloc, before, null, inner)
}

/// Makes the directories along a path, each in the one above. The last is empty.
pub(crate) fn new_directories(
    alloc: Global,
    path: &[BString],
    null: ObjectId,
) -> Result<Open, AllocError>
    requires { AllByRecursion IsEntryName (names_of path.now) }
    ensures dirs { IfOk result (λ it. (at : Path) → dirs_of it at
        ≡ ensured_dirs (names_of path.now) null (λ _. None) at) }
    ensures bases { IfOk result (λ it. AreNew it) }
{
    let inner = Open::new(alloc, Tree::empty(alloc));
    nested(alloc, path, null, inner)
}

/// Makes a directory with one entry.
fn with_entry(
    alloc: Global,
    name: &BString,
    mode: EntryMode,
    id: ObjectId,
) -> Result<Open, AllocError>
    requires { IsEntryName (bstring_bytes name.now) }
    ensures { IfOk result (λ it. it ≡ opened
        (record { mode = mode_bits mode; name = bstring_bytes name.now; id = id } ∷ []) [] []) }
{
    let mut entries = Entries::from_tree(alloc, Tree::empty(alloc));
    entries.insert(name, mode, id)?;
    Ok(Open {
        entries,
        base: Tree::empty(alloc),
        children: Children::new(alloc),
    })
}

/// Makes the directories along a path, with a directory in the last.
fn nested(alloc: Global, path: &[BString], null: ObjectId, inner: Open) -> Result<Open, AllocError>
    requires { AllByRecursion IsEntryName (names_of path.now) }
    ensures dirs { IfOk result (λ it. (at : Path) → dirs_of it at
        ≡ nested_dirs (names_of path.now) null (dirs_of inner) at) }
    ensures bases { IfOk result (λ it. AreNew inner → AreNew it) }
{
    let mut made = inner;
    let mut remaining = path;
    'names: while let Some((name, before)) = remaining.split_last() {
        made = directory_of(alloc, name, null, made)?;
        remaining = before;
    }
    Ok(made)
}

/// Makes a directory with one directory in it.
fn directory_of(
    alloc: Global,
    name: &BString,
    null: ObjectId,
    inner: Open,
) -> Result<Open, AllocError>
    requires { IsEntryName (bstring_bytes name.now) }
    ensures { IfOk result (λ it. it ≡ opened (with_directory (bstring_bytes name.now) null []) []
        ((bstring_bytes name.now, inner) ∷ [])) }
{
    let mut entries = Entries::from_tree(alloc, Tree::empty(alloc));
    let mut children = Children::new(alloc);
    add_directory(alloc, &mut entries, &mut children, name, null, inner)?;
    Ok(Open {
        entries,
        base: Tree::empty(alloc),
        children,
    })
}
