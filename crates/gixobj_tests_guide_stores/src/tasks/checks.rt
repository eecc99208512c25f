//! Objects that are checked as `git fsck` checks them.

use anyhow::Result;
use gix_object::Kind;
use gix_object::hash::{Kind as HashKind, ObjectId};
use gixobj_examples_checked::{ReceiveError, ReceivedObjects};
use gixobj_fsck_messages::{Finding, Message, Options, Override, OverrideError};
use gixobj_fsck_objects::fsck;
use std::alloc::Global;
use std::io::Write;

/// Returns the options of `git -c fsck.zeroPaddedFilemode=warn fsck --strict`.
pub fn options_for_old_trees() -> Result<Options, OverrideError> {
    let mut options = Options::new(true);
    options.set(Message::ZeroPaddedFilemode, Override::Warn)?;
    Ok(options)
}

/// Prints what `git fsck` prints of an object up to the name of each message, and the offset.
pub fn print_findings<W: Write>(
    alloc: Global,
    options: &Options,
    kind: Kind,
    id: ObjectId,
    content: &[u8],
    out: &mut W,
) -> Result<()> {
    for finding in &fsck(alloc, kind, id.kind(), content, options)? {
        let Finding { message, offset } = *finding;
        let is_error = options.severity(message).is_error();
        let label = if is_error { "error" } else { "warning" };
        writeln!(out, "{label} in {kind} {id}: {message}, at byte {offset}")?;
    }
    Ok(())
}

/// Takes an object into a store as `git receive-pack` does with `receive.fsckObjects`. `None` if git rejects it.
pub fn take_object(
    store: &mut ReceivedObjects,
    kind: Kind,
    content: &[u8],
) -> Result<Option<ObjectId>> {
    match store.receive(kind, HashKind::Sha1, content) {
        Ok(id) => Ok(Some(id)),
        Err(ReceiveError::Rejected) => Ok(None),
        Err(error) => Err(error.into()),
    }
}
