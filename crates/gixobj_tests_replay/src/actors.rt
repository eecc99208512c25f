//! Answers about actors: decoded, trimmed and encoded again.

use gixobj_base::OutOfMemory;
use gixobj_base::actor::{Signature, SignatureRef};
use gixobj_tests_recorded::actors::{write_actor, write_owned_actor};
use gixobj_tests_recorded::answer::Answer;
use gixobj_tests_recorded::fields::fault;

/// Answers with the actor of a line: it and the rest, trimmed, its size, and encoded from its borrowed and its
/// owned form.
pub(crate) fn actor_answer(question: &[u8], answer: &mut Answer) {
    let bytes = answer.input(question);
    let mut rest = bytes.as_slice();
    match SignatureRef::from_bytes_consuming(&mut rest) {
        Ok(actor) => {
            write_actor("ok", actor, answer);
            answer.add("rest");
            answer.add_bytes(rest);
            write_actor("trim", actor.trim(), answer);
            answer.write("size");
            answer.add_size(actor.size());
            write_borrowed(actor, answer);
            write_copy(actor.to_owned(answer.alloc), answer);
        }
        Err(error) => answer.write(fault(&error)),
    }
}

/// The columns of an owned actor, of its size and of its encoding.
fn write_copy(owned: Result<Signature, OutOfMemory>, answer: &mut Answer) {
    match owned {
        Ok(owned) => {
            write_owned_actor("owned", &owned, answer);
            answer.write("owned-size");
            answer.add_size(owned.size());
            write_owned("owned-written", &owned, answer);
        }
        Err(OutOfMemory) => answer.fail(),
    }
}

/// Answers with the actor of a line: it, trimmed, and encoded from its borrowed and its owned form; and the
/// rest of the line.
pub(crate) fn actor_line_answer(question: &[u8], answer: &mut Answer) {
    let bytes = answer.input(question);
    let mut rest = bytes.as_slice();
    match SignatureRef::from_bytes_consuming(&mut rest) {
        Ok(actor) => {
            write_actor("ok", actor, answer);
            write_actor("trimmed", actor.trim(), answer);
            write_borrowed(actor, answer);
            answer.add_size(actor.size());
            match actor.to_owned(answer.alloc) {
                Ok(owned) => {
                    write_owned("owned", &owned, answer);
                    answer.add_size(owned.size());
                }
                Err(_) => answer.fail(),
            }
        }
        Err(error) => answer.write(fault(&error)),
    }
    answer.write_bytes("rest", rest);
}

/// The column of an encoded borrowed actor.
fn write_borrowed(actor: SignatureRef<'_>, answer: &mut Answer) {
    let mut out = Vec::new(answer.alloc);
    let outcome = actor.write_to(&mut out);
    answer.write_outcome("written", outcome, out.as_slice());
}

/// The column of an encoded owned actor.
fn write_owned(token: &str, actor: &Signature, answer: &mut Answer) {
    let mut out = Vec::new(answer.alloc);
    let outcome = actor.write_to(&mut out);
    answer.write_outcome(token, outcome, out.as_slice());
}
