//! The findings about tags.
ghost use Rattle.std.specs.Prelude.{◌≡◌, IfOk, None, OnErr, codes};
ghost use Rattle.gixobj_fsck_tags.specs.Tags.{HasTagMessage};
ghost use Rattle.gixobj_fsck_findings.specs.Checks.{rest_of};
ghost use Rattle.gixobj_fsck_findings.specs.TagChecks.{AreTagFindings, ExtraCheck, IsFieldFault, NameCheck, NamesCheck};
ghost use Rattle.gixobj_fsck_findings.specs.TagChecks.{TagCheck, TaggerCheck, TypeCheck};
ghost use Rattle.gixobj_fsck_messages.specs.Options.{severity_by};
ghost use Rattle.gixobj_hash.specs.HeaderFormat.{BeginsWithNoField};

use crate::lines::{IdLineRule, check_header, check_id_line};
use crate::list::{list, offset_of, rest_after};
use gixobj_fsck::actors::{after_actor, after_line};
use gixobj_fsck_messages::{Finding, Message, Options};
use gixobj_fsck_tags::is_clean_tag;
use gixobj_fsck_tags::tags::is_reference_name;
use gixobj_hash::Kind as ObjectKind;
use gixobj_hash::hash::Kind;
use gixobj_parse::parse::{after_name, header_field};
use std::alloc::{AllocError, Global};

/// Returns git's messages about a tag in the order of git's reports, each at its offset.
///
/// Ids are hex of the hash function `kind`. A message that counts as an error by the options ends the check,
/// but for one of the tagger, after which git looks for extra headers. `missingObject`, `missingTypeEntry` and
/// `missingTagEntry` end it always. Messages that the options ignore aren't listed: `extraHeaderEntry` is, if
/// its severity is overridden. The offset is that of the message's line, or of where a missing line was
/// expected. That of `nulInHeader` is the first zero byte, that of `unterminatedHeader` the end. The list
/// allocates, and nothing else.
///
/// # Errors
///
/// [`AllocError`] if an allocation failed, only for a tag about which git has a message, or with an extra header.
pub fn fsck_tag(
    alloc: Global,
    kind: Kind,
    tag: &[u8],
    options: &Options,
) -> Result<Vec<Finding>, AllocError>
    ensures found { IfOk result (λ findings.
        AreTagFindings (severity_by options.now) kind tag.now findings.items) }
    ensures error { OnErr result (HasTagMessage kind tag.now) }
{
    let mut findings = Vec::new(alloc);
    if is_clean_tag(kind, tag) {
        return Ok(findings);
    }
    check_tag(&mut findings, options, kind, tag)?;
    Ok(findings)
}

/// Checks a tag.
fn check_tag(
    findings: &mut Vec<Finding>,
    options: &Options,
    kind: Kind,
    tag: &[u8],
) -> Result<(), AllocError>
    ensures { IfOk result (λ _. TagCheck (severity_by options.now) kind tag.now tag.now
        findings.old.items findings.new.items None) }
{
    let Some(start) = check_header(findings, options, tag)? else {
        return Ok(());
    };
    let object = IdLineRule {
        kind,
        missing: Message::MissingObject,
        bad: Message::BadObjectSha1,
    };
    let Some(target_type) = check_id_line(findings, options, tag, start, b"object", object)? else {
        return Ok(());
    };
    let Some(names) = check_type(findings, options, tag, target_type)? else {
        return Ok(());
    };
    check_names(findings, options, tag, names)
}

/// Checks the name, the tagger, and that no further header comes.
fn check_names(
    findings: &mut Vec<Finding>,
    options: &Options,
    tag: &[u8],
    input: &[u8],
) -> Result<(), AllocError>
    ensures { IfOk result (λ _. NamesCheck (severity_by options.now) tag.now input.now
        findings.old.items findings.new.items None) }
{
    let Some(tagger) = check_name(findings, options, tag, input)? else {
        return Ok(());
    };
    let Some(rest) = check_tagger(findings, options, tag, tagger)? else {
        return Ok(());
    };
    check_extra(findings, options, tag, rest)
}

/// Checks the line of the type. Returns the input after it if the check goes on.
fn check_type<'a>(
    findings: &mut Vec<Finding>,
    options: &Options,
    tag: &[u8],
    input: &'a [u8],
) -> Result<Option<&'a [u8]>, AllocError>
    ensures { IfOk result (λ rest. TypeCheck (severity_by options.now) tag.now input.now
        findings.old.items findings.new.items (rest_of rest)) }
{
    let offset = offset_of(tag, input);
    let Some((value, rest)) = header_field(input, b"type") else {
        let fault = field_fault(
            input,
            b"type",
            Message::MissingTypeEntry,
            Message::MissingType,
        );
        list(findings, options, fault, offset)?;
        return Ok(None);
    };
    if ObjectKind::from_name(value).is_some() {
        return Ok(Some(rest));
    }
    list(findings, options, Message::BadType, offset)?;
    Ok(rest_after(options, Message::BadType, rest))
}

/// Checks the line of the name. Returns the input after it if the check goes on.
fn check_name<'a>(
    findings: &mut Vec<Finding>,
    options: &Options,
    tag: &[u8],
    input: &'a [u8],
) -> Result<Option<&'a [u8]>, AllocError>
    ensures { IfOk result (λ rest. NameCheck (severity_by options.now) tag.now input.now
        findings.old.items findings.new.items (rest_of rest)) }
{
    let offset = offset_of(tag, input);
    let Some((name, rest)) = header_field(input, b"tag") else {
        let fault = field_fault(input, b"tag", Message::MissingTagEntry, Message::MissingTag);
        list(findings, options, fault, offset)?;
        return Ok(None);
    };
    if is_reference_name(name) {
        return Ok(Some(rest));
    }
    list(findings, options, Message::BadTagName, offset)?;
    Ok(rest_after(options, Message::BadTagName, rest))
}

/// Returns the fault of a line that isn't the field of this name.
fn field_fault(input: &[u8], name: &[u8], missing: Message, unended: Message) -> Message
    requires { BeginsWithNoField name.now input.now }
    ensures { IsFieldFault name.now missing unended input.now result }
{
    match after_name(input, name) {
        Some(_) => unended,
        None => missing,
    }
}

/// Checks the tagger's line. Returns the input after it if the check goes on.
fn check_tagger<'a>(
    findings: &mut Vec<Finding>,
    options: &Options,
    tag: &[u8],
    input: &'a [u8],
) -> Result<Option<&'a [u8]>, AllocError>
    ensures { IfOk result (λ rest. TaggerCheck (severity_by options.now) tag.now input.now
        findings.old.items findings.new.items (rest_of rest)) }
{
    let offset = offset_of(tag, input);
    let Some(tagger) = after_name(input, b"tagger") else {
        list(findings, options, Message::MissingTaggerEntry, offset)?;
        return Ok(rest_after(options, Message::MissingTaggerEntry, input));
    };
    let rest = after_line(tagger);
    match after_actor(tagger) {
        Ok(_) => Ok(Some(rest)),
        Err(fault) => {
            list(findings, options, fault, offset)?;
            Ok(Some(rest))
        }
    }
}

/// Checks that no further header comes.
fn check_extra(
    findings: &mut Vec<Finding>,
    options: &Options,
    tag: &[u8],
    input: &[u8],
) -> Result<(), AllocError>
    ensures { IfOk result (λ _. ExtraCheck (severity_by options.now) tag.now input.now
        findings.old.items findings.new.items None) }
{
    match input {
        [] | [b'\n', ..] => Ok(()),
        _ => list(
            findings,
            options,
            Message::ExtraHeaderEntry,
            offset_of(tag, input),
        ),
    }
}
