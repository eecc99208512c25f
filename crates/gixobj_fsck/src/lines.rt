//! The lines of commits and tags that begin with a name and a space.
ghost use Rattle.std.specs.Prelude.{Err, MatchResult, Ok};
ghost use Rattle.gixobj_fsck.specs.Lines.{ActorLine, IdLine};

use crate::actors::{after_actor, after_line};
use gixobj_fsck_messages::Message;
use gixobj_hash::hash::Kind;
use gixobj_parse::parse::{after_name, header_id};

/// Returns the input after the line of this name with an id in hex.
///
/// # Errors
///
/// - `missing` if another line comes.
/// - `bad` if the name isn't followed by an id in hex and a newline.
pub fn after_id_line<'a>(
    input: &'a [u8],
    name: &[u8],
    kind: Kind,
    missing: Message,
    bad: Message,
) -> Result<&'a [u8], Message>
    ensures { MatchResult result (λ rest. IdLine name.now kind missing bad input.now (Ok rest.now))
        (λ fault. IdLine name.now kind missing bad input.now (Err fault)) }
{
    if let Some((_, rest)) = header_id(input, name, kind) {
        return Ok(rest);
    }
    match after_name(input, name) {
        Some(_) => Err(bad),
        None => Err(missing),
    }
}

/// Returns the input after the line of this name with an actor.
///
/// # Errors
///
/// - `missing` if another line comes.
/// - The fault of the actor, as [`after_actor`] returns it.
pub fn after_actor_line<'a>(
    input: &'a [u8],
    name: &[u8],
    missing: Message,
) -> Result<&'a [u8], Message>
    ensures { MatchResult result (λ rest. ActorLine name.now missing input.now (Ok rest.now))
        (λ fault. ActorLine name.now missing input.now (Err fault)) }
{
    let Some(actor) = after_name(input, name) else {
        return Err(missing);
    };
    match after_actor(actor) {
        Ok(_) => Ok(after_line(actor)),
        Err(fault) => Err(fault),
    }
}
