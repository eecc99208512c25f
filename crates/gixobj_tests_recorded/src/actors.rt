//! Columns of actors and times.

use crate::answer::{Answer, Form};
use crate::fields::fault;
use gixobj_base::actor::{Signature, SignatureRef};
use gixobj_base::date::Time;
use gixobj_base::decode;

/// The column of an owned actor: name, email and time.
pub fn write_owned_actor(token: &str, actor: &Signature, answer: &mut Answer) {
    answer.write_bytes(token, actor.name.as_slice());
    answer.add_bytes(actor.email.as_slice());
    add_time(Some(actor.time), answer);
}

/// The column of an actor, as `add_actor` adds it.
pub fn write_actor(token: &str, actor: SignatureRef<'_>, answer: &mut Answer) {
    answer.write(token);
    add_actor(actor, answer);
}

/// Adds name, email, the bytes of the time, and the time. Escaped bytes have no time.
pub fn add_actor(actor: SignatureRef<'_>, answer: &mut Answer) {
    answer.add_bytes(actor.name.as_bytes());
    if let Form::Escaped = answer.form {
        answer.push(b" <");
        answer.push_escaped(actor.email.as_bytes());
        answer.push(b">");
        answer.add_bytes(actor.time.as_bytes());
    } else {
        answer.add_bytes(actor.email.as_bytes());
        answer.add_bytes(actor.time.as_bytes());
        add_time(actor.time(), answer);
    }
}

/// The column of an actor, or of the error of its line.
pub fn write_actor_or_fault(
    token: &str,
    actor: Result<SignatureRef<'_>, decode::Error>,
    answer: &mut Answer,
) {
    answer.write(token);
    match (actor, answer.form) {
        (Ok(actor), Form::Escaped) => add_actor(actor, answer),
        (Ok(actor), _) => {
            answer.add("ok");
            add_actor(actor, answer);
        }
        (Err(error), _) => answer.add(fault(&error)),
    }
}

/// Adds seconds and offset, or `-`.
pub fn add_time(time: Option<Time>, answer: &mut Answer) {
    match time {
        Some(time) => {
            answer.add_shown(time.seconds);
            answer.add_shown(time.offset);
        }
        None => answer.add("-"),
    }
}
