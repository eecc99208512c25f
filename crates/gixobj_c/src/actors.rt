//! Actors: who made an object, and when.
ghost use Rattle.std.specs.Prelude.{◌≡◌, ℕ, List};
ghost use Rattle.gixobj_actor.specs.Actor.{IsActorLineOf, actor_view};
ghost use Rattle.gixobj_c.specs.Actors.{IsActorAt, IsActorCall};
ghost use Rattle.gixobj_hash.specs.Bytes.{less_than};
ghost use Rattle.gixobj_hash.specs.ByteStrings.{SplitsAt};

use crate::spans::{Span, prefix_span, span_of};
use gixobj_actor::actor::SignatureRef;
use gixobj_c_codes::codes::{DONE, MALFORMED};
use gixobj_hash::split::split_at_byte;

/// The actor of a line.
#[repr(C)]
#[derive(Clone, Copy)]
pub struct Actor {
    /// The position of the name.
    pub name: Span,
    /// The position of the email.
    pub email: Span,
    /// The position of the time. Bytes after it are no part of the actor.
    pub time: Span,
    /// The seconds since the start of 1970 in UTC, or 0 if the time is malformed.
    pub seconds: i64,
    /// The offset from UTC in seconds, or 0 if the time is malformed.
    pub offset: i32,
    /// 1 if the time decodes, and otherwise 0.
    pub has_time: u32,
}

/// Decodes the actor of a line, as of an author, a committer or a tagger. Allocates nothing.
#[unsafe(no_mangle)]
pub extern "C" fn gixobj_actor(line: &[u8], out: &mut Actor) -> u32
    ensures { IsActorCall line.now out.old out.new result }
{
    let Some((_, after)) = split_at_byte(line, b'<') else {
        return MALFORMED;
    };
    let mut rest = line;
    let Ok(actor) = SignatureRef::from_bytes_consuming(&mut rest) else {
        return MALFORMED;
    };
    *out = parts_of(line, after, actor, rest);
    DONE
}

/// Returns the positions of the actor's parts, and the decoded time. `after` follows the first `<` of the line.
fn parts_of(line: &[u8], after: &[u8], actor: SignatureRef<'_>, rest: &[u8]) -> Actor
    requires actor { IsActorLineOf line.now (actor_view actor) rest.now }
    requires split { (before : List ℕ) × SplitsAt less_than line.now before after.now }
    ensures { IsActorAt line.now (actor_view actor.entry) rest.now result }
{
    let email_len = actor.email.as_bytes().len();
    let name = prefix_span(line, actor.name);
    let email = span_of(line, actor.email, after.len() - email_len);
    let span = span_of(line, actor.time, rest.len());
    match actor.time() {
        Some(time) => Actor {
            name,
            email,
            time: span,
            seconds: time.seconds,
            offset: time.offset,
            has_time: 1,
        },
        None => Actor {
            name,
            email,
            time: span,
            seconds: 0,
            offset: 0,
            has_time: 0,
        },
    }
}
