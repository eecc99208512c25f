//! Sources and sinks in memory: slices and vectors.

use crate::helpers::is_written;
use gixobj_base::streams::{FromRead, Sink, Source, ToWrite};
use std::io;

/// Returns whether a read returned this number of bytes.
fn is_read(outcome: io::Result<usize>, count: usize) -> bool {
    outcome.ok() == Some(count)
}

#[test]
fn reads_slices(rt: HostRuntime) {
    let mut slice: &[u8] = b"abc";
    let mut chunk = [0u8; 2];
    assert!(rt; is_read(slice.read_some(&mut chunk), 2));
    assert!(rt; chunk.as_slice() == b"ab".as_slice());
    let mut reader = FromRead(&mut slice);
    assert!(rt; is_read(reader.read_some(&mut chunk), 1));
    assert!(rt; is_read(reader.read_some(&mut chunk), 0));
}

#[test]
fn writes_vectors(rt: HostRuntime) {
    let mut held = Vec::new(rt.alloc());
    assert!(rt; is_written(held.write_bytes(b"ab")));
    assert!(rt; is_written(ToWrite(&mut held).write_bytes(b"c")));
    assert!(rt; held.as_slice() == b"abc".as_slice());
}
