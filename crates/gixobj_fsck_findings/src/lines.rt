//! The checks of headers and of lines, which commits and tags have in common.
ghost use Rattle.std.specs.Prelude.{◌≡◌, Err, IfOk};
ghost use Rattle.gixobj_fsck.specs.Headers.{HeaderPart};
ghost use Rattle.gixobj_fsck.specs.Lines.{IdLine};
ghost use Rattle.gixobj_fsck_findings.specs.Checks.{EndsAtFault, offset_of, rest_of};
ghost use Rattle.gixobj_fsck_findings.specs.LineChecks.{ActorCheck, HeaderCheck, IsHeaderOffset};
ghost use Rattle.gixobj_fsck_messages.specs.Options.{severity_by};

use crate::list::{list, offset_of, rest_after};
use gixobj_fsck::actors::{after_actor, after_line};
use gixobj_fsck::headers;
use gixobj_fsck::lines::after_id_line;
use gixobj_fsck_messages::{Finding, Message, Options};
use gixobj_hash::hash::Kind;
use gixobj_hash::split::split_at_byte;
use std::alloc::AllocError;

/// A line with an id: its name, the kind of the id, and the messages if the line is missing or has no id.
#[derive(Clone, Copy)]
pub(crate) struct IdLineRule {
    pub(crate) kind: Kind,
    pub(crate) missing: Message,
    pub(crate) bad: Message,
}

/// Checks a header. Returns the input if the check goes on.
pub(crate) fn check_header<'a>(
    findings: &mut Vec<Finding>,
    options: &Options,
    input: &'a [u8],
) -> Result<Option<&'a [u8]>, AllocError>
    ensures { IfOk result (λ rest. HeaderCheck (severity_by options.now) input.now
        findings.old.items findings.new.items (rest_of rest)) }
{
    match headers::check_header(input) {
        Ok(_) => Ok(Some(input)),
        Err(fault) => {
            list(findings, options, fault, header_offset(input, fault))?;
            Ok(None)
        }
    }
}

/// Returns the offset of a header's fault.
fn header_offset(input: &[u8], fault: Message) -> usize
    requires { HeaderPart input.now (Err fault) }
    ensures { IsHeaderOffset input.now fault result }
{
    match split_at_byte(input, 0) {
        Some((before, _)) if fault == Message::NulInHeader => before.len(),
        _ => input.len(),
    }
}

/// Checks the line of this name with an id. Returns the input after it if the check goes on.
pub(crate) fn check_id_line<'a>(
    findings: &mut Vec<Finding>,
    options: &Options,
    object: &[u8],
    input: &'a [u8],
    name: &[u8],
    rule: IdLineRule,
) -> Result<Option<&'a [u8]>, AllocError>
    ensures { IfOk result (λ rest. EndsAtFault (severity_by options.now) object.now
        (IdLine name.now rule.kind rule.missing rule.bad)
        input.now findings.old.items findings.new.items (rest_of rest)) }
{
    match after_id_line(input, name, rule.kind, rule.missing, rule.bad) {
        Ok(rest) => Ok(Some(rest)),
        Err(fault) => {
            list(findings, options, fault, offset_of(object, input))?;
            Ok(None)
        }
    }
}

/// Checks an actor, in a line of the object. Returns the input after the line if the check goes on.
pub(crate) fn check_actor<'a>(
    findings: &mut Vec<Finding>,
    options: &Options,
    object: &[u8],
    line: &[u8],
    actor: &'a [u8],
) -> Result<Option<&'a [u8]>, AllocError>
    ensures { IfOk result (λ rest. ActorCheck (severity_by options.now) (offset_of object.now line.now)
        actor.now findings.old.items findings.new.items (rest_of rest)) }
{
    let rest = after_line(actor);
    match after_actor(actor) {
        Ok(_) => Ok(Some(rest)),
        Err(fault) => {
            list(findings, options, fault, offset_of(object, line))?;
            Ok(rest_after(options, fault, rest))
        }
    }
}
