//! Actors: what follows `author `, `committer ` or `tagger `, up to the end of the object.
ghost use Rattle.std.specs.Prelude.{Err, MatchResult, Ok};
ghost use Rattle.gixobj_fsck.specs.Actors.{ActorPart, EmailPart, IsAfterLine, NamePart};

use crate::dates::{after_date, after_date_start, after_zone};
use crate::spans::split_name;
use gixobj_fsck_messages::Message;
use gixobj_hash::split::split_at_byte;

/// Returns the input after the actor.
///
/// # Errors
///
/// The first of these that applies:
///
/// - [`Message::MissingNameBeforeEmail`], [`Message::BadName`], [`Message::MissingEmail`] or
///   [`Message::MissingSpaceBeforeEmail`] of the name.
/// - [`Message::BadEmail`] of the email.
/// - [`Message::MissingSpaceBeforeDate`], [`Message::ZeroPaddedDate`], [`Message::BadDateOverflow`] or
///   [`Message::BadDate`] of the date.
/// - [`Message::BadTimezone`] of the time zone.
pub fn after_actor(input: &[u8]) -> Result<&[u8], Message>
    ensures { MatchResult result (λ rest. ActorPart input.now (Ok rest.now))
        (λ fault. ActorPart input.now (Err fault)) }
{
    let email = match after_name(input) {
        Ok(email) => email,
        Err(fault) => return Err(fault),
    };
    let start = match after_email(email) {
        Ok(start) => start,
        Err(fault) => return Err(fault),
    };
    let date = match after_date_start(start) {
        Ok(date) => date,
        Err(fault) => return Err(fault),
    };
    let zone = match after_date(date) {
        Ok(zone) => zone,
        Err(fault) => return Err(fault),
    };
    after_zone(zone)
}

/// Returns the input after the name and `<`.
fn after_name(input: &[u8]) -> Result<&[u8], Message>
    ensures { MatchResult result (λ rest. NamePart input.now (Ok rest.now))
        (λ fault. NamePart input.now (Err fault)) }
{
    let (name, rest) = split_name(input);
    match rest {
        [b'<', email @ ..] => match name {
            [] => Err(Message::MissingNameBeforeEmail),
            [.., b' '] => Ok(email),
            _ => Err(Message::MissingSpaceBeforeEmail),
        },
        [b'>', ..] => Err(Message::BadName),
        _ => Err(Message::MissingEmail),
    }
}

/// Returns the input after the email and `>`.
fn after_email(input: &[u8]) -> Result<&[u8], Message>
    ensures { MatchResult result (λ rest. EmailPart input.now (Ok rest.now))
        (λ fault. EmailPart input.now (Err fault)) }
{
    let (_, rest) = split_name(input);
    match rest {
        [b'>', date @ ..] => Ok(date),
        _ => Err(Message::BadEmail),
    }
}

/// Returns the input after the line, or none if the line has no newline.
pub fn after_line(input: &[u8]) -> &[u8]
    ensures { IsAfterLine input.now result.now }
{
    match split_at_byte(input, b'\n') {
        Some((_, rest)) => rest,
        None => b"",
    }
}
