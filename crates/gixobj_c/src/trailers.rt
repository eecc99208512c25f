//! The trailers of messages.
ghost use Rattle.std.specs.Prelude.{◌<◌, ◌≤◌, length};
ghost use Rattle.gixobj_c.specs.Trailers.{HasLinesAt, IsTrailerCall};

use crate::commits::Cursor;
use crate::spans::{bytes_from, offset_of};
use gixobj_c_codes::buffers::write_two;
use gixobj_c_codes::codes::{AT_END, BAD_OFFSET, DONE, OUT_OF_MEMORY, UNKNOWN_CODE};
use gixobj_text::commit::message::{first_trailer, trailer_block};
use std::alloc::Global;

/// The state of a cursor in a message at whose offset the trailer block is looked for.
const START: u8 = 0;
/// The state of a cursor in a trailer block.
const IN_BLOCK: u8 = 1;

/// Writes the token and the value of the trailer at the cursor (git-interpret-trailers), and moves the cursor after it.
/// A value of several lines allocates.
#[unsafe(no_mangle)]
#[tactic(auto, using(crate::proofs::TrailerCalls::rest_of_lines, crate::proofs::TrailerCalls::trailer_call_of_written))]
pub extern "C" fn gixobj_trailer(
    alloc: Global,
    message: &[u8],
    cursor: &mut Cursor,
    token: &mut [u8],
    token_len: &mut usize,
    value: &mut [u8],
    value_len: &mut usize,
) -> u32
    ensures { IsTrailerCall message.now cursor.old cursor.new token.old token.new
        token_len.old token_len.new value.old value.new value_len.old value_len.new result }
{
    if cursor.state > IN_BLOCK {
        return UNKNOWN_CODE;
    }
    if cursor.offset > message.len() {
        return BAD_OFFSET;
    }
    let lines = lines_at(message, cursor.offset, cursor.state);
    match first_trailer(alloc, lines) {
        Ok(Some((trailer, rest))) => {
            let bytes = trailer.token.as_bytes();
            let status = write_two(bytes, token, token_len, &trailer.value, value, value_len);
            if status == DONE {
                *cursor = Cursor {
                    offset: offset_of(message, rest),
                    state: IN_BLOCK,
                };
            }
            status
        }
        Ok(None) => AT_END,
        Err(_) => OUT_OF_MEMORY,
    }
}

/// Returns the lines whose trailers come at this offset.
fn lines_at(message: &[u8], offset: usize, state: u8) -> &[u8]
    requires offset { offset ≤ length message.now }
    requires state { state < 2 }
    ensures { HasLinesAt message.now offset state result.now }
{
    let bytes = bytes_from(message, offset);
    if state == START {
        trailer_block(bytes)
    } else {
        bytes
    }
}
