//! Messages of write errors, and a history in a caller's contract. `git mktree --missing` prints the ids.
ghost use Rattle.std.specs.Prelude.{ℕ, ◌∷◌, [], IfOk, IfSome};
ghost use Rattle.gix_object.specs.Bases.{HasBases};
ghost use Rattle.gix_object.specs.Calls.{IsCallableOnTrees, answered, names_of};
ghost use Rattle.gix_object.specs.Files.{NamedFiles, SameFiles, Table};
ghost use Rattle.gix_object.specs.History.{FilesAfter, remove, upsert};
ghost use Rattle.gix_object.specs.Mode.{mode_of_kind};
ghost use Rattle.gix_object.specs.Openings.{OfTrees};
ghost use Rattle.gix_object.specs.State.{EditorFiles, open_bases, open_dirs};
ghost use Rattle.gix_object.specs.Tables.{AgreesWithPairs, AgreesWithStore};
ghost use Rattle.gix_object.specs.entries.entry_kind.EntryKind.TheVariants.{Blob};

use crate::samples::{id, path_of};
use bstr::BString;
use gix_object::find::Never;
use gix_object::hash::{Kind as HashKind, ObjectId};
use gix_object::tree::EntryKind;
use gix_object::tree::editor::{Editor, Error, WriteError, Written};
use gix_object::{Find, Tree};

const TEST: &[u8] = b"1f7a7a472abf3dd9643fd615f6da379c4acb3e3a";

const BAK: &[u8] = b"d8329fc1cc938780ffdd9f94e0d364e0ea74f579";

/// The tree of the file `a` with the first id.
const A: &[u8] = b"a18166ad9dc2c46e84c28b674ab8be1e202f6f82";

#[test]
fn failed_out(rt: HostRuntime) {
    let message = WriteError::Out(7u8).to_string(rt.alloc());
    let wanted = b"a tree could not be written: 7".as_slice();
    assert!(rt; matches!(&message, Ok(message) if message.as_bytes() == wanted));
}

/// Upserts a file, removes a path and writes. The written tree has the files of that history.
fn edited_and_written<S: Find, E: Drop, F: FnMut(&Tree) -> Result<ObjectId, E> + Drop>(
    editor: &mut Editor<S>,
    first: &[BString],
    id: ObjectId,
    second: &[BString],
    out: F,
) -> Result<Option<Written>, Error>
    requires callable { IsCallableOnTrees F.pre (answered F.FnMut) out }
    ensures { IfOk result (λ it. IfSome it
        (λ written. OfTrees (S.objects editor.old.store)
        (λ trees. (T : Table) (n : ℕ) → AgreesWithStore T trees
        → AgreesWithPairs T written.trees.items
        → HasBases T (open_dirs editor.old) (open_bases editor.old)
        → SameFiles (NamedFiles T n written.id)
        (FilesAfter T n (upsert (names_of first.now) (mode_of_kind Blob) id ∷ remove
        (names_of second.now) ∷ []) (EditorFiles T n editor.old))))) }
{
    editor.try_upsert(first, EntryKind::Blob, id)?;
    editor.try_remove(second)?;
    match editor.write(out) {
        Ok(written) => Ok(Some(written)),
        Err(_) => Ok(None),
    }
}

/// Only the file `a` remains if it is inserted next to the directory `b`, and `b` is removed.
#[test]
fn writes_files_of_history(rt: HostRuntime) {
    let alloc = rt.alloc();
    let (a, b) = (path_of(alloc, &["a"]), path_of(alloc, &["b"]));
    let mut editor = Editor::new(Tree::empty(alloc), Never, HashKind::Sha1);
    assert!(rt; editor.try_upsert(&b, EntryKind::Tree, id(BAK)).is_ok());
    let out = |tree: &Tree| tree.compute_id(alloc, HashKind::Sha1);
    let written = edited_and_written(&mut editor, &a, id(TEST), &b, out);
    assert!(rt; matches!(&written, Ok(Some(written)) if written.id == id(A)));
}
