//! Buffers of the caller.
ghost use Rattle.std.specs.Prelude.{◌≡◌, length};
ghost use Rattle.gixobj_c_codes.specs.Buffers.{WritesBytes, WritesPrefix, WritesTwo};

use crate::codes::{BUFFER_TOO_SHORT, DONE};

/// Writes the bytes at the beginning of the buffer, if it is long enough.
pub fn write_prefix(bytes: &[u8], buffer: &mut [u8]) -> u32
    ensures { WritesPrefix bytes.now buffer.old buffer.new result }
{
    let len = bytes.len();
    if buffer.len() < len {
        return BUFFER_TOO_SHORT;
    }
    buffer[..len].copy_from_slice(bytes);
    DONE
}

/// Writes the number of bytes, and the bytes if the buffer is long enough.
pub fn write_bytes(bytes: &[u8], buffer: &mut [u8], len: &mut usize) -> u32
    ensures { WritesBytes bytes.now buffer.old buffer.new len.new result }
{
    *len = bytes.len();
    write_prefix(bytes, buffer)
}

/// Writes both numbers of bytes, and the bytes if both buffers are long enough.
pub fn write_two(
    first: &[u8],
    buffer: &mut [u8],
    len: &mut usize,
    second: &[u8],
    second_buffer: &mut [u8],
    second_len: &mut usize,
) -> u32
    ensures { WritesTwo first.now buffer.old buffer.new len.new second.now second_buffer.old
        second_buffer.new second_len.new result }
{
    *len = first.len();
    *second_len = second.len();
    if second_buffer.len() < second.len() {
        return BUFFER_TOO_SHORT;
    }
    if buffer.len() < first.len() {
        return BUFFER_TOO_SHORT;
    }
    let _ = write_prefix(first, buffer);
    write_prefix(second, second_buffer)
}
