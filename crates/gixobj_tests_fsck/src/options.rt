//! The options of a check.

use gixobj_fsck_messages::{Message, Options, Override};
use gixobj_tests_recorded::fields::split_at_first;

/// The options of a check: `default` or `strict`, and overrides as `,hasDot=ignore`.
pub(crate) fn options_of(check: &[u8]) -> Options {
    let (name, overrides) = split_at_first(check, b',');
    let mut options = Options::new(name == b"strict".as_slice());
    for part in overrides.split(|byte| *byte == b',') {
        set_override(&mut options, part);
    }
    options
}

/// Sets an override as `hasDot=ignore`.
fn set_override(options: &mut Options, part: &[u8]) {
    let (name, severity) = split_at_first(part, b'=');
    let Some(message) = Message::from_name(name) else {
        return;
    };
    let _ = options.set(message, severity_of(severity));
}

/// The severity of an override.
fn severity_of(name: &[u8]) -> Override {
    if name == b"ignore".as_slice() {
        return Override::Ignore;
    }
    if name == b"warn".as_slice() {
        return Override::Warn;
    }
    Override::Error
}
