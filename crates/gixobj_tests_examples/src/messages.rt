//! Messages that `git interpret-trailers` writes and reads.

use gixobj_examples_objects::assembler::{
    MessageError, Trailer, message_of, message_with_description,
};
use gixobj_examples_objects::rewriter::with_renamed_trailers;
use gixobj_tests_api::samples::string_of;
use std::alloc::Global;

/// The output of `git interpret-trailers --trailer 'Acked-by: A <a@x>' --trailer 'Ticket: 12'` for the title.
const ASSEMBLED: &[u8] = b"Add a reader\n\nAcked-by: A <a@x>\nTicket: 12\n";

/// The output of the same call for a message of this title and two paragraphs.
const DESCRIBED: &[u8] = b"Add a reader\n\n\
    It reads.\n\n\
    Note: not a trailer,\nfor a line follows.\n\n\
    Acked-by: A <a@x>\nTicket: 12\n";

/// The paragraphs of this message.
const DESCRIPTION: &[u8] = b"It reads.\n\nNote: not a trailer,\nfor a line follows.";

/// A message with three trailers; the value of the second has two lines.
const ACKED: &[u8] = b"Add a reader\n\n\
    It reads.\n\n\
    Acked-by: A <a@x>\n\
    Ticket: 12\n\x20 and 13\n\
    acked-by: C <c@x>\n";

/// The title, and the lines that `git interpret-trailers --parse` prints for the message, with the other token.
const REVIEWED: &[u8] = b"Add a reader\n\n\
    Reviewed-by: A <a@x>\n\
    Ticket: 12 and 13\n\
    Reviewed-by: C <c@x>\n";

/// A trailer, and a ticket.
fn trailers_of(alloc: Global, token: &[u8], value: &[u8]) -> [Trailer; 2] {
    [
        Trailer {
            token: string_of(alloc, token),
            value: string_of(alloc, value),
        },
        Trailer {
            token: string_of(alloc, b"Ticket"),
            value: string_of(alloc, b"12"),
        },
    ]
}

/// Names a result, by these bytes of a message.
fn outcome(message: &Result<Vec<u8>, MessageError>, bytes: &[u8]) -> &'static str {
    match message {
        Ok(message) if message.as_slice() == bytes => "the message",
        Err(MessageError::Title) => "title",
        Err(MessageError::Trailer { index: 0 }) => "first trailer",
        _ => "otherwise",
    }
}

/// Titles, tokens and values of the first trailer, and the results, with a description or without.
const ROWS: [(&[u8], &[u8], &[u8], &str); 4] = [
    (b"Add a reader", b"Acked-by", b"A <a@x>", "the message"),
    (b"Add\nit", b"Acked-by", b"A <a@x>", "title"),
    (b"Add a reader", b"Acked by", b"A <a@x>", "first trailer"),
    (b"Add a reader", b"Acked-by", b"A <a@x> ", "first trailer"),
];

#[test]
fn assembles_message_of_one_line_parts(rt: HostRuntime) {
    let alloc = rt.alloc();
    for &(title, token, value, wanted) in &ROWS {
        let trailers = trailers_of(alloc, token, value);
        let message = message_of(alloc, title, &trailers);
        assert!(rt; outcome(&message, ASSEMBLED) == wanted, "{wanted}");
        let message = message_with_description(alloc, title, DESCRIPTION, &trailers);
        assert!(rt;
            outcome(&message, DESCRIBED) == wanted,
            "{wanted} with a description"
        );
    }
}

/// The message that `git interpret-trailers` prints for itself, without trailers.
#[test]
fn ends_description_without_trailers(rt: HostRuntime) {
    let message = message_with_description(rt.alloc(), b"Add a reader", b"It reads.", &[]);
    assert!(rt; outcome(&message, b"Add a reader\n\nIt reads.\n") == "the message");
}

#[test]
fn renames_trailers_and_unfolds_their_values(rt: HostRuntime) {
    let alloc = rt.alloc();
    let renamed = with_renamed_trailers(alloc, ACKED, b"acked-by", b"Reviewed-by");
    assert!(rt; outcome(&renamed, REVIEWED) == "the message");
    let rejected = with_renamed_trailers(alloc, ACKED, b"acked-by", b"Reviewed by");
    assert!(rt; outcome(&rejected, REVIEWED) == "first trailer");
}
