//! Titles, bodies, summaries and trailers of messages.
ghost use Rattle.std.specs.Prelude.{◌≡◌};
ghost use Rattle.gixobj_c.specs.Messages.{IsMessageOf, IsSummaryCall};

use crate::spans::{Span, empty_span, prefix_span, span_of};
use gixobj_c_codes::buffers::write_bytes;
use gixobj_c_codes::codes::{DONE, OUT_OF_MEMORY};
use gixobj_text::commit::MessageRef;
use std::alloc::Global;

/// The title and the body of a message.
#[repr(C)]
#[derive(Clone, Copy)]
pub struct Message {
    /// The position of the title.
    pub title: Span,
    /// The position of the body.
    pub body: Span,
    /// 1 if there is a body, and otherwise 0.
    pub has_body: u32,
}

/// Finds the title and the body of a message (git-commit, "DISCUSSION"). Allocates nothing.
#[unsafe(no_mangle)]
pub extern "C" fn gixobj_message(message: &[u8], out: &mut Message) -> u32
    ensures status { result ≡ 0 }
    ensures found { IsMessageOf message.now out.new }
{
    *out = message_of(message);
    DONE
}

/// Returns the positions of the title and of the body.
fn message_of(message: &[u8]) -> Message
    ensures { IsMessageOf message.now result }
{
    let parts = MessageRef::from_bytes(message);
    let title = prefix_span(message, parts.title);
    let Some(body) = parts.body else {
        return Message {
            title,
            body: empty_span(0),
            has_body: 0,
        };
    };
    let body = span_of(message, body, 0);
    Message {
        title,
        body,
        has_body: 1,
    }
}

/// Writes the title of a message on one line (git-log, "PRETTY FORMATS", `%s`). A title of several lines allocates.
#[unsafe(no_mangle)]
#[tactic(auto, using(crate::proofs::Titles::summary_call_of_written))]
pub extern "C" fn gixobj_summary(
    alloc: Global,
    message: &[u8],
    out: &mut [u8],
    out_len: &mut usize,
) -> u32
    ensures { IsSummaryCall message.now out.old out.new out_len.old out_len.new result }
{
    match MessageRef::from_bytes(message).summary(alloc) {
        Ok(summary) => write_bytes(&summary, out, out_len),
        Err(_) => OUT_OF_MEMORY,
    }
}
