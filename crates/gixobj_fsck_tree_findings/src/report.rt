//! Findings that the options report.
ghost use Rattle.std.specs.Prelude.{◌≡◌, ◌++◌, [], ◌∷◌, IsSome, IsTrue, OnErr, OnOk};
ghost use Rattle.gixobj_fsck_messages.specs.Options.{is_reported_by};
ghost use Rattle.gixobj_fsck_tree_findings.specs.Findings.{finding_at, findings_at, reported};

use gixobj_fsck_messages::{Finding, Message, Options};
use std::alloc::AllocError;

/// Appends a finding if the options report its message.
pub(crate) fn report(
    findings: &mut Vec<Finding>,
    options: &Options,
    message: Message,
    offset: usize,
) -> Result<(), AllocError>
    ensures found { OnOk result (findings.new.items
        ≡ findings.old.items ++ reported options.now (finding_at message offset ∷ [])) }
    ensures error { OnErr result (IsTrue (is_reported_by options.now message)) }
{
    if options.severity(message).is_reported() {
        findings.push(Finding { message, offset })?;
    }
    Ok(())
}

/// Appends a finding if there is an offset and the options report the message.
pub(crate) fn report_found(
    findings: &mut Vec<Finding>,
    options: &Options,
    message: Message,
    found: Option<usize>,
) -> Result<(), AllocError>
    ensures found { OnOk result (findings.new.items
        ≡ findings.old.items ++ reported options.now (findings_at message found)) }
    ensures offset { OnErr result (IsSome found) }
    ensures error { OnErr result (IsTrue (is_reported_by options.now message)) }
{
    if let Some(offset) = found {
        report(findings, options, message, offset)?;
    }
    Ok(())
}
