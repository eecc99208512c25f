//! A message with renamed trailers.

use gix_object::OutOfMemory;
use gix_object::commit::MessageRef;
use gix_object::commit::message::BodyRef;
use std::alloc::Global;

/// Copies a message, and renames its trailers of one token, such as `Acked-by` to `Reviewed-by`.
pub fn renamed(
    alloc: Global,
    message: &[u8],
    from: &[u8],
    to: &[u8],
) -> Result<Vec<u8>, OutOfMemory> {
    let parts = MessageRef::from_bytes(message);
    let mut copy = Vec::from_slice(alloc, parts.title.as_bytes())?;
    if let Some(body) = parts.body() {
        let lines = trailer_lines(alloc, &body, from, to)?;
        for paragraph in [body.without_trailer().as_bytes(), lines.as_slice()] {
            if !paragraph.is_empty() {
                copy.extend_from_slice(b"\n\n")?;
                copy.extend_from_slice(paragraph)?;
            }
        }
    }
    Ok(copy)
}

/// Encodes the trailers of a body, each as one line.
fn trailer_lines(
    alloc: Global,
    body: &BodyRef<'_>,
    from: &[u8],
    to: &[u8],
) -> Result<Vec<u8>, OutOfMemory> {
    let mut lines = Vec::new(alloc);
    for trailer in body.trailers(alloc) {
        let trailer = trailer?;
        let token = trailer.token.as_bytes();
        lines.extend_from_slice(if token.eq_ignore_ascii_case(from) {
            to
        } else {
            token
        })?;
        lines.extend_from_slice(b": ")?;
        lines.extend_from_slice(&trailer.value)?;
        lines.push(b'\n')?;
    }
    Ok(lines)
}
