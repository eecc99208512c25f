//! Writes in which a tree fails: the report, and the trees that the next write emits.

use crate::runs::samples::{commands_of, editor_over, reports};
use gixobj_base::Tree;
use gixobj_base::hash::{Kind as HashKind, ObjectId};
use gixobj_editor::editor::{Editor, WriteError};
use gixobj_editor::{EditReply, Reply, run};
use gixobj_tests_stores::failing::Failing;
use std::alloc::Global;

/// Why a tree gets no id.
#[derive(Clone, Copy)]
enum IdError {
    /// It has a file of the name `secret`.
    Secret,
    /// It isn't encoded.
    Unwritten,
}

/// Computes the id of a tree without a file of the name `secret`.
fn id_unless_secret(alloc: Global, tree: &Tree) -> Result<ObjectId, IdError> {
    for entry in tree.entries.iter() {
        if entry.filename.as_bytes() == b"secret".as_slice() {
            return Err(IdError::Secret);
        }
    }
    match tree.compute_id(alloc, HashKind::Sha1) {
        Ok(id) => Ok(id),
        Err(_) => Err(IdError::Unwritten),
    }
}

/// The root fails twice, each time after a directory that succeeds. Then the directory fails, in a write of
/// the root and in one by its cursor.
const SCRIPT: &str = "upsert blob 83baae61804e65cc73a7201a7252750c76066a30 bak/test.txt
upsert blob fa49b077972391ad58037050f2a75f74e3671e92 secret
write
write
remove secret
write
at bak upsert blob fa49b077972391ad58037050f2a75f74e3671e92 secret
write
at bak write
at bak leaf secret
write
";

const REPORT: &str = "ok
ok
refused out
refused out
ok
wrote d3768f26137cee49678da775c7c7e79a9ce14150 2
ok
refused out
refused out
ok
wrote d3768f26137cee49678da775c7c7e79a9ce14150 1
lookups 1
";

/// Returns whether a reply is that of a write that failed for a file of the name `secret`.
fn is_for_secret(reply: Option<&Reply<IdError>>) -> bool {
    match reply {
        Some(Reply::Edit(EditReply::WriteRefused(WriteError::Out(error)))) => {
            matches!(error, IdError::Secret)
        }
        _ => false,
    }
}

/// Returns whether the third reply to the script has the closure's error, and all have the report.
fn has_replies(alloc: Global, editor: &mut Editor<Failing>) -> bool {
    let Ok(commands) = commands_of(alloc, SCRIPT) else {
        return false;
    };
    match run(
        alloc,
        editor,
        commands,
        |tree: &Tree| id_unless_secret(alloc, tree),
    ) {
        Ok(replies) => {
            is_for_secret(replies.get(2))
                && reports(alloc, replies.as_slice(), editor.lookups(), REPORT)
        }
        Err(_) => false,
    }
}

/// The store keeps no tree of a failed write.
#[test]
fn returns_error_of_closure(rt: HostRuntime) {
    let mut editor = editor_over(rt.alloc(), &[], &[]);
    assert!(rt; has_replies(rt.alloc(), &mut editor));
    assert!(rt; editor.store_mut().lookups() == 1);
    assert!(rt; editor.store_mut().keeps() == 3);
}
