//! The script of ten lines, in which any allocation may fail. The reply to the failed command is out of
//! memory, and the other replies are unchanged. A failed command that is repeated has the reply that it has
//! with ample memory.

use crate::runs::samples::{TEN_LINES, editor_over, has_id_and_count, replies_to};
use gixobj_base::encode;
use gixobj_editor::editor::{Editor, Error, WriteError, Written};
use gixobj_editor::{EditReply, Reply};
use gixobj_store_keep::{Keep, KeepError};
use gixobj_tests_stores::failing::Failing;
use std::alloc::Global;

/// The reply to a command with ample memory.
#[derive(Clone, Copy)]
pub(crate) enum Ample {
    /// The edit is done.
    Done,
    /// This number of trees is emitted and kept, the last of this id.
    Wrote(&'static str, usize),
    /// A name is empty.
    EmptyName,
}

const ROOT: Ample = Ample::Wrote("3c4e9cd789d88d8d89c1073707c3585e41b0e614", 2);

/// The write of only the root, since the directory is unchanged.
const ROOT_ALONE: Ample = Ample::Wrote("3c4e9cd789d88d8d89c1073707c3585e41b0e614", 1);

const BAK: Ample = Ample::Wrote("d8329fc1cc938780ffdd9f94e0d364e0ea74f579", 1);

const LAST: Ample = Ample::Wrote("0155eb4229851634a0f03eb265b69f5a2d56f341", 1);

/// The replies to the ten lines.
const AMPLE: &[Ample] = &[
    Ample::Done,
    Ample::Done,
    Ample::Done,
    ROOT,
    Ample::Done,
    ROOT_ALONE,
    BAK,
    Ample::Done,
    LAST,
    Ample::EmptyName,
];

/// Returns [`AMPLE`].
pub(crate) fn ample_replies() -> &'static [Ample] {
    AMPLE
}

/// What a reply is, compared with that with ample memory.
#[derive(Clone, Copy)]
pub(crate) enum Outcome {
    /// The reply with ample memory.
    Ample,
    /// Out of memory, before anything was emitted or changed.
    OutOfMemory,
    /// Another reply.
    Other,
}

/// Returns the reply to the one edit or write of a command.
pub(crate) fn edit_reply(reply: &Reply<encode::Error>) -> Option<&EditReply<encode::Error>> {
    match reply {
        Reply::Edit(reply) => Some(reply),
        Reply::At(replies) => match replies.as_slice() {
            [reply] => Some(reply),
            _ => None,
        },
        _ => None,
    }
}

/// Classifies a reply other than one on trees that were emitted and not all kept. An edit in a directory counts as
/// its command.
pub(crate) fn outcome_of(reply: &Reply<encode::Error>, ample: Ample) -> Outcome {
    match (reply, edit_reply(reply), ample) {
        (Reply::AtRefused(Error::OutOfMemory), _, _) => Outcome::OutOfMemory,
        (_, Some(EditReply::Done), Ample::Done) => Outcome::Ample,
        (_, Some(EditReply::Written(written)), Ample::Wrote(id, count))
            if has_id_and_count(written, id, count) => Outcome::Ample,
        (_, Some(EditReply::Refused(Error::EmptyPathComponent)), Ample::EmptyName) => {
            Outcome::Ample
        }
        (_, Some(EditReply::Refused(Error::OutOfMemory)), _) => Outcome::OutOfMemory,
        (_, Some(EditReply::WriteRefused(WriteError::OutOfMemory)), _) => Outcome::OutOfMemory,
        (
            _,
            Some(
                EditReply::WriteRefused(
                    WriteError::Out(encode::Error::Writer(_) | encode::Error::OutOfMemory),
                ),
            ),
            _,
        ) => Outcome::OutOfMemory,
        _ => Outcome::Other,
    }
}

/// Keeps the trees after the first `count`, and returns whether that succeeds.
fn keeps_the_rest(store: &mut Failing, written: &Written, count: usize) -> bool {
    for (id, tree) in written.trees.iter().skip(count) {
        if store.keep(*id, tree).is_err() {
            return false;
        }
    }
    true
}

/// Classifies the reply to one command. If trees were emitted and, for lack of memory, not all kept, the rest is
/// kept.
fn command_outcome(
    editor: &mut Editor<Failing>,
    reply: &Reply<encode::Error>,
    ample: Ample,
) -> Outcome {
    match (edit_reply(reply), ample) {
        (
            Some(EditReply::NotKept(written, count, KeepError::OutOfMemory)),
            Ample::Wrote(id, wanted),
        ) => {
            let is_kept = has_id_and_count(written, id, wanted)
                && keeps_the_rest(editor.store_mut(), written, *count);
            if is_kept {
                Outcome::Ample
            } else {
                Outcome::Other
            }
        }
        _ => outcome_of(reply, ample),
    }
}

/// Runs the command of a line alone, and classifies its reply.
fn line_outcome(alloc: Global, editor: &mut Editor<Failing>, line: &str, ample: Ample) -> Outcome {
    let Some(replies) = replies_to(alloc, editor, line) else {
        return Outcome::OutOfMemory;
    };
    match replies.as_slice() {
        [reply] => command_outcome(editor, reply, ample),
        _ => Outcome::Other,
    }
}

/// Returns whether the command of a line has its reply, at once or in a second run after an allocation
/// failed.
fn gets(alloc: Global, editor: &mut Editor<Failing>, line: &str, ample: Ample) -> bool {
    match line_outcome(alloc, editor, line, ample) {
        Outcome::Ample => true,
        Outcome::OutOfMemory => matches!(line_outcome(alloc, editor, line, ample), Outcome::Ample),
        Outcome::Other => false,
    }
}

/// The editor counts the lookups of the store: two, or three if one was repeated.
#[test]
fn runs_each_command_whatever_allocation_fails(rt: HostRuntime) {
    let mut editor = editor_over(rt.alloc(), &[], &[]);
    for (line, ample) in TEN_LINES.lines().zip(ample_replies()) {
        assert!(rt; gets(rt.alloc(), &mut editor, line, *ample), "{line}");
    }
    let lookups = editor.lookups();
    assert!(rt; lookups == editor.store_mut().lookups() && (2..4).contains(&lookups));
}
