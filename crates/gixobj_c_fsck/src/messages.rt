//! Messages by their numbers: names and severities.
ghost use Rattle.std.specs.Prelude.{◌≡◌};
ghost use Rattle.gixobj_c_fsck.specs.Messages.{IsNameCall, IsSeverityCall};
ghost use Rattle.gixobj_c_fsck.specs.Codes.{severity_code, strict_of_code};

use gixobj_c_codes::buffers::write_bytes;
use gixobj_c_codes::codes::{DONE, UNKNOWN_CODE};
use gixobj_fsck_messages::{Message, Severity};

/// Writes the name of the message with this number, as `git fsck` prints it. Allocates nothing.
#[unsafe(no_mangle)]
pub extern "C" fn gixobj_fsck_message_name(message: u8, out: &mut [u8], out_len: &mut usize) -> u32
    ensures { IsNameCall message out.old out.new out_len.old out_len.new result }
{
    match Message::from_number(message) {
        Some(message) => write_bytes(message.as_str().as_bytes(), out, out_len),
        None => UNKNOWN_CODE,
    }
}

/// Writes the number of the severity of the message with this number. Allocates nothing.
#[unsafe(no_mangle)]
pub extern "C" fn gixobj_fsck_severity(message: u8, strict: u8, out: &mut u32) -> u32
    ensures { IsSeverityCall message (strict_of_code strict) out.old out.new result }
{
    let Some(strict) = strictness(strict) else {
        return UNKNOWN_CODE;
    };
    let Some(message) = Message::from_number(message) else {
        return UNKNOWN_CODE;
    };
    *out = severity_number(Some(message.severity(strict)));
    DONE
}

/// Returns whether a check with this number is strict, or `None`.
pub(crate) fn strictness(code: u8) -> Option<bool>
    ensures { result ≡ strict_of_code code }
{
    match code {
        0 => Some(false),
        1 => Some(true),
        _ => None,
    }
}

/// Returns the number of a severity: its rank and 1, or 0 without one.
pub(crate) fn severity_number(severity: Option<Severity>) -> u32
    ensures { result ≡ severity_code severity }
{
    match severity {
        Some(severity) => severity.rank() as u32 + 1,
        None => 0,
    }
}
