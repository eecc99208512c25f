//! Reports of the replies to a script, as lines.
ghost use Rattle.std.specs.Prelude.{◌≡◌, ◌∷◌, ◌++◌, [], List, IfOk, OnOk};
ghost use Rattle.std.specs.List.{flat_map};
ghost use Rattle.gixobj_cli_edit.specs.Reporting.{edit_reply_line, edit_reply_bytes, edit_error_line, AreLinesOf};
ghost use Rattle.gixobj_cli_edit.specs.Reporting.{lookups_line, reply_lines, report_lines_of};
ghost use Rattle.gixobj_editor.specs.declared.reply.Reply.{Reply};
ghost use Rattle.gixobj_hash.specs.FieldFormat.{encode_line};

use gixobj_editor::editor::{Error, WriteError};
use gixobj_editor::{EditReply, Reply};
use gixobj_hash::OutOfMemory;
use itoa::Buffer;
use std::alloc::Global;

/// Returns the lines that report the replies to a run, in order, and last `lookups` with the number of
/// lookups.
///
/// Edits in a directory have a line each, and each other reply has one line:
///
/// - `ok`, for an edit or a new root;
/// - `refused N`, for an edit that failed or a directory that isn't opened. N is the number of the [`Error`],
///   from 1 in the order of its cases. For a directory that was to be removed as a leaf, the line is
///   `refused 4` with a space and its path. A new root that is not well-formed is reported as a malformed
///   tree, 5;
/// - `wrote ID COUNT`, `refused out` or `refused memory`, for a write. COUNT is the number of emitted trees;
/// - `unkept ID`, for a write whose trees the store did not all keep.
///
/// Allocates the lines.
///
/// # Errors
///
/// [`OutOfMemory`] if an allocation fails.
pub fn report_lines<E>(
    alloc: Global,
    replies: &[Reply<E>],
    lookups: u64,
) -> Result<Vec<u8>, OutOfMemory>
    ensures { IfOk result (λ bytes. bytes.items ≡ report_lines_of replies.now lookups) }
{
    let mut bytes = Vec::new(alloc);
    for reply in replies {
        push_reply(&mut bytes, reply)?;
    }
    push_lookups(&mut bytes, lookups)?;
    Ok(bytes)
}

/// Appends the lines that report a reply, if there are the lines of all replies before. Returns `None` if an
/// allocation fails: the lines are lost then.
pub(crate) fn with_reply<E>(lines: Option<Vec<u8>>, reply: &Reply<E>) -> Option<Vec<u8>>
    ensures { (before : List (Reply E)) → AreLinesOf lines before
        → AreLinesOf result (before ++ reply.now ∷ []) }
{
    let mut bytes = lines?;
    match push_reply(&mut bytes, reply) {
        Ok(()) => Some(bytes),
        Err(_) => None,
    }
}

/// Appends the line with the number of lookups.
pub(crate) fn push_lookups(bytes: &mut Vec<u8>, lookups: u64) -> Result<(), OutOfMemory>
    ensures { OnOk result (bytes.new.items ≡ bytes.old.items ++ lookups_line lookups) }
{
    let mut digits = Buffer::new();
    bytes.extend_from_slice(b"lookups ")?;
    bytes.extend_from_slice(digits.format(lookups).as_bytes())?;
    bytes.push(b'\n')?;
    Ok(())
}

/// Appends the lines that report a reply.
fn push_reply<E>(bytes: &mut Vec<u8>, reply: &Reply<E>) -> Result<(), OutOfMemory>
    ensures { OnOk result (bytes.new.items ≡ bytes.old.items ++ reply_lines reply.now) }
{
    match reply {
        Reply::Edit(reply) => push_edit_reply(bytes, reply)?,
        Reply::At(replies) => push_edit_replies(bytes, replies)?,
        Reply::AtRefused(error) => push_error(bytes, error)?,
        Reply::RootSet => bytes.extend_from_slice(b"ok\n")?,
        Reply::RootRefused => push_error(bytes, &Error::MalformedTree)?,
    }
    Ok(())
}

/// Appends the lines that report the replies to edits.
fn push_edit_replies<E>(bytes: &mut Vec<u8>, replies: &[EditReply<E>]) -> Result<(), OutOfMemory>
    ensures { OnOk result (bytes.new.items
        ≡ bytes.old.items ++ flat_map edit_reply_line replies.now) }
{
    for reply in replies {
        push_edit_reply(bytes, reply)?;
    }
    Ok(())
}

/// Appends the line that reports the reply to an edit or a write.
fn push_edit_reply<E>(bytes: &mut Vec<u8>, reply: &EditReply<E>) -> Result<(), OutOfMemory>
    ensures { OnOk result (bytes.new.items ≡ bytes.old.items ++ edit_reply_line reply.now) }
{
    push_edit_line(bytes, reply)?;
    bytes.push(b'\n')?;
    Ok(())
}

/// Appends the report of the reply to an edit or a write, without its newline.
fn push_edit_line<E>(bytes: &mut Vec<u8>, reply: &EditReply<E>) -> Result<(), OutOfMemory>
    ensures { OnOk result (bytes.new.items ≡ bytes.old.items ++ edit_reply_bytes reply.now) }
{
    let mut hex = [0u8; 64];
    let mut digits = Buffer::new();
    match reply {
        EditReply::Done => bytes.extend_from_slice(b"ok")?,
        EditReply::Refused(error) => push_error_line(bytes, error)?,
        EditReply::Written(written) => {
            bytes.extend_from_slice(b"wrote ")?;
            bytes.extend_from_slice(written.id.hex_to_buf(&mut hex).as_bytes())?;
            bytes.push(b' ')?;
            bytes.extend_from_slice(digits.format(written.trees.len()).as_bytes())?;
        }
        EditReply::WriteRefused(WriteError::Out(_)) => bytes.extend_from_slice(b"refused out")?,
        EditReply::WriteRefused(WriteError::OutOfMemory) => {
            bytes.extend_from_slice(b"refused memory")?;
        }
        EditReply::NotKept(written, _, _) => {
            bytes.extend_from_slice(b"unkept ")?;
            bytes.extend_from_slice(written.id.hex_to_buf(&mut hex).as_bytes())?;
        }
    }
    Ok(())
}

/// Appends the line that reports an edit that failed.
fn push_error(bytes: &mut Vec<u8>, error: &Error) -> Result<(), OutOfMemory>
    ensures { OnOk result (bytes.new.items ≡ bytes.old.items
        ++ encode_line (edit_error_line error.now)) }
{
    push_error_line(bytes, error)?;
    bytes.push(b'\n')?;
    Ok(())
}

/// Appends `refused` and the number of the error, with the path of a directory.
fn push_error_line(bytes: &mut Vec<u8>, error: &Error) -> Result<(), OutOfMemory>
    ensures { OnOk result (bytes.new.items ≡ bytes.old.items ++ edit_error_line error.now) }
{
    match error {
        Error::EmptyPathComponent => bytes.extend_from_slice(b"refused 1")?,
        Error::SlashInPathComponent => bytes.extend_from_slice(b"refused 2")?,
        Error::FindExistingObject(_) => bytes.extend_from_slice(b"refused 3")?,
        Error::CannotRemoveNonLeaf { rela_path } => {
            bytes.extend_from_slice(b"refused 4 ")?;
            bytes.extend_from_slice(rela_path.as_bytes())?;
        }
        Error::MalformedTree => bytes.extend_from_slice(b"refused 5")?,
        Error::OutOfMemory => bytes.extend_from_slice(b"refused 6")?,
    }
    Ok(())
}
