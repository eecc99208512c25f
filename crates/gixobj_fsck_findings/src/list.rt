//! The list of findings, and whether a check goes on after one.
ghost use Rattle.std.specs.Prelude.{◌≡◌, IfOk};
ghost use Rattle.gixobj_fsck_findings.specs.Checks.{listed, offset_of, rest_after, rest_of};
ghost use Rattle.gixobj_fsck_messages.specs.Options.{severity_by};

use gixobj_fsck_messages::{Finding, Message, Options};
use std::alloc::AllocError;

/// Appends a message at an offset, unless the options ignore it.
///
/// # Errors
///
/// [`AllocError`] if the allocation failed.
pub(crate) fn list(
    findings: &mut Vec<Finding>,
    options: &Options,
    message: Message,
    offset: usize,
) -> Result<(), AllocError>
    ensures { IfOk result (λ _. findings.new.items
        ≡ listed (severity_by options.now) message offset findings.old.items) }
{
    if options.severity(message).is_reported() {
        findings.push(Finding { message, offset })?;
    }
    Ok(())
}

/// Returns the rest, in which the check goes on, unless the message counts as an error.
pub(crate) fn rest_after<'a>(
    options: &Options,
    message: Message,
    rest: &'a [u8],
) -> Option<&'a [u8]>
    ensures { rest_of result ≡ rest_after (severity_by options.now) message rest.now }
{
    if options.severity(message).is_error() {
        None
    } else {
        Some(rest)
    }
}

/// Returns the offset in the object at which a rest of it begins.
pub(crate) fn offset_of(object: &[u8], rest: &[u8]) -> usize
    ensures { result ≡ offset_of object.now rest.now }
{
    object.len().saturating_sub(rest.len())
}
