//! Answers about scripts of edits: their commands, their output on the empty root over an empty store or a store
//! of objects, and why directories weren't found.

use bstr::BString;
use gixobj_base::tree::EntryMode;
use gixobj_base::{Kind, OutOfMemory, Tree, encode, hash};
use gixobj_cli_edit::{ScriptError, edit, parse_script, report_lines};
use gixobj_editor::editor::{Editor, Error};
use gixobj_editor::{Command, Edit, EditReply, Reply, run};
use gixobj_store_keep::Memory;
use gixobj_store_keep::find::existing_object;
use gixobj_tests_recorded::answer::Answer;
use gixobj_tests_recorded::fields::{bytes_of, kind_of_ids, split_at_first};

/// Answers with the output of a script on the empty root, over an empty store. The question is the kind of
/// ids and the script.
pub(crate) fn script_answer(question: &[u8], answer: &mut Answer) {
    let (token, script) = split_at_first(question, b'\t');
    let script = answer.unescape(script);
    match edit(answer.alloc, script.as_slice(), kind_of_ids(token)) {
        Ok(seen) => answer.push_escaped(seen.as_slice()),
        Err(error) => write_error(&error, answer),
    }
}

/// Answers with the commands of a script, one in a line, with the names of their paths in angle brackets. The
/// question is the kind of ids and the script.
pub(crate) fn command_answer(question: &[u8], answer: &mut Answer) {
    let (token, script) = split_at_first(question, b'\t');
    let script = answer.unescape(script);
    match parse_script(answer.alloc, script.as_slice(), kind_of_ids(token)) {
        Ok(commands) => push_commands(&commands, answer),
        Err(error) => write_error(&error, answer),
    }
}

/// The number of the first malformed line.
fn write_error(error: &ScriptError, answer: &mut Answer) {
    match error {
        ScriptError::BadLine(number) => answer.write_shown("line", *number),
        ScriptError::OutOfMemory => answer.fail(),
    }
}

/// Appends commands, one in a line.
fn push_commands(commands: &[Command], answer: &mut Answer) {
    for command in commands {
        match command {
            Command::Edit(edit) => push_edit(edit, answer),
            Command::At { prefix, edits } => push_edits(prefix, edits, answer),
            Command::SetRoot(root) if root.entries.is_empty() => answer.push(b"empty root"),
            Command::SetRoot(_) => answer.push(b"other root"),
        }
        answer.push(b"\\n");
    }
}

/// Appends edits at a path.
fn push_edits(prefix: &[BString], edits: &[Edit], answer: &mut Answer) {
    answer.push(b"at ");
    push_names(prefix, answer);
    for edit in edits {
        answer.push(b" ");
        push_edit(edit, answer);
    }
}

/// Appends an edit.
fn push_edit(edit: &Edit, answer: &mut Answer) {
    match edit {
        Edit::Upsert { path, kind, id } => {
            let token = EntryMode::from(*kind).as_str();
            answer.push_shown(format_args!("upsert {token} {id} "));
            push_names(path, answer);
        }
        Edit::Remove { path } => {
            answer.push(b"remove ");
            push_names(path, answer);
        }
        Edit::RemoveLeaf { path } => {
            answer.push(b"leaf ");
            push_names(path, answer);
        }
        Edit::Write => answer.push(b"write"),
    }
}

/// Appends the names of a path in angle brackets.
fn push_names(names: &[BString], answer: &mut Answer) {
    for name in names {
        answer.push(b"<");
        answer.push_escaped(name.as_bytes());
        answer.push(b">");
    }
}

/// Answers with the output of a script on the empty root over a store of these objects, and the cause of each
/// failed lookup. The question is the kind of ids, the objects, and the script.
pub(crate) fn stored_script_answer(question: &[u8], answer: &mut Answer) {
    let (token, rest) = split_at_first(question, b'\t');
    let (objects, script) = split_at_first(rest, b'\t');
    let hash_kind = kind_of_ids(token);
    let script = answer.unescape(script);
    let Ok(commands) = parse_script(answer.alloc, script.as_slice(), hash_kind) else {
        return answer.write("no script");
    };
    let store = store_of(objects, hash_kind, answer);
    let alloc = answer.alloc;
    let mut editor = Editor::new(Tree::empty(alloc), store, hash_kind);
    let out = |tree: &Tree| tree.compute_id(alloc, hash_kind);
    match run(alloc, &mut editor, commands, out) {
        Ok(replies) => push_output(&replies, editor.lookups(), answer),
        Err(OutOfMemory) => answer.fail(),
    }
}

/// A store of objects. Each has its kind and its bytes.
fn store_of(objects: &[u8], hash_kind: hash::Kind, answer: &mut Answer) -> Memory {
    let mut store = Memory::new(answer.alloc);
    let mut kind = None;
    for field in objects.split(|byte| *byte == b' ') {
        match kind {
            None => kind = Kind::from_bytes(answer.alloc, field).ok(),
            Some(known) => {
                let bytes = bytes_of(answer.alloc, field);
                if store.insert(known, hash_kind, bytes.as_slice()).is_err() {
                    answer.fail();
                }
                kind = None;
            }
        }
    }
    store
}

/// Appends the output of replies, and a line of `causes` and the cause of each failed lookup.
fn push_output(replies: &[Reply<encode::Error>], lookups: u64, answer: &mut Answer) {
    match report_lines(answer.alloc, replies, lookups) {
        Ok(seen) => answer.push_escaped(seen.as_slice()),
        Err(OutOfMemory) => answer.fail(),
    }
    answer.push(b"causes");
    for reply in replies {
        match reply {
            Reply::Edit(EditReply::Refused(Error::FindExistingObject(cause)))
            | Reply::AtRefused(Error::FindExistingObject(cause)) => answer.add(cause_keyword(
                cause,
            )),
            _ => {}
        }
    }
    answer.push(b"\\n");
}

/// The name of a cause.
fn cause_keyword(cause: &existing_object::Error) -> &'static str {
    match cause {
        existing_object::Error::Find(_) => "Find",
        existing_object::Error::Decode { .. } => "Decode",
        existing_object::Error::NotFound { .. } => "NotFound",
        existing_object::Error::ObjectKind { .. } => "ObjectKind",
    }
}
