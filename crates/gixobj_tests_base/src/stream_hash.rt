//! Ids of objects whose content comes from a stream, compared with those of `git hash-object`.

use crate::limited::Stepping;
use gixobj_base::hash::ObjectId;
use gixobj_base::stream_hash::{Error, compute_slice_hash, compute_source_hash};
use gixobj_base::{Kind, compute_hash, compute_stream_hash, hash};
use std::alloc::Global;
use std::io::Read;

const HELLO: &[u8] = b"ce013625030ba8dba906f756967f9e9ca394464a";

/// Returns a reader of one byte per call, which then fails or ends.
fn byte_reader(rest: &[u8], fails: bool) -> Stepping<'_> {
    Stepping {
        rest,
        step: 1,
        fails,
    }
}

/// Returns the SHA-1 id of a blob of the next `len` bytes.
fn blob_id<R: Read>(stream: &mut R, len: u64) -> Result<ObjectId, Error> {
    compute_stream_hash(hash::Kind::Sha1, Kind::Blob, stream, len)
}

/// Returns whether the id is that of `hello` and a newline, and `rest` remains.
fn is_hello(found: Result<ObjectId, Error>, remaining: &[u8]) -> bool {
    found.ok() == ObjectId::from_hex(HELLO) && remaining == b"rest".as_slice()
}

#[test]
fn hashes_prefix_of_stream_slice_and_source(rt: HostRuntime) {
    let mut stream: &[u8] = b"hello\nrest";
    let of_stream = blob_id(&mut stream, 6);
    assert!(rt; is_hello(of_stream, stream));
    let mut slice: &[u8] = b"hello\nrest";
    let of_slice = compute_slice_hash(hash::Kind::Sha1, Kind::Blob, &mut slice, 6);
    assert!(rt; is_hello(of_slice, slice));
    let mut source: &[u8] = b"hello\nrest";
    let of_source = compute_source_hash(hash::Kind::Sha1, Kind::Blob, &mut source, 6);
    assert!(rt; is_hello(of_source, source));
}

/// Returns whether the content ended early, and nothing remains.
fn is_ended(found: Result<ObjectId, Error>, remaining: &[u8]) -> bool {
    matches!(&found, Err(Error::UnexpectedEof)) && remaining.is_empty()
}

#[test]
fn returns_unexpected_eof_when_slice_ends_early(rt: HostRuntime) {
    let mut stream: &[u8] = b"hello";
    let of_stream = blob_id(&mut stream, 6);
    assert!(rt; is_ended(of_stream, stream));
    let mut slice: &[u8] = b"hello";
    let of_slice = compute_slice_hash(hash::Kind::Sha1, Kind::Blob, &mut slice, 6);
    assert!(rt; is_ended(of_slice, slice));
}

/// Fails with `Io` or `UnexpectedEof` if a reader fails or ends after a shorter prefix of `hello` and a
/// newline. Reads no byte after the content, from a reader that would fail there.
#[test]
fn returns_error_when_reader_fails_or_ends(rt: HostRuntime) {
    let input = b"hello\n".as_slice();
    for count in 0..6usize {
        let rest = &input[..count];
        let mut failing = byte_reader(rest, true);
        assert!(rt; matches!(&blob_id(&mut failing, 6), Err(Error::Io(_))));
        let mut ending = byte_reader(rest, false);
        assert!(rt; matches!(&blob_id(&mut ending, 6), Err(Error::UnexpectedEof)));
    }
    let mut failing = byte_reader(input, true);
    assert!(rt; blob_id(&mut failing, 6).ok() == ObjectId::from_hex(HELLO));
}

/// Returns `len` bytes, which count from 0 to 250 again and again. Fewer if memory runs out.
fn content_of(alloc: Global, len: u64) -> Vec<u8> {
    let mut content = Vec::new(alloc);
    for i in 0..len {
        let _ = content.push((i % 251) as u8);
    }
    content
}

/// Lengths of blobs from `content_of`, kinds of ids, and the ids of these blobs.
const SIZES: &[(u64, hash::Kind, &str)] = &[
    (
        0,
        hash::Kind::Sha1,
        "e69de29bb2d1d6434b8b29ae775ad8c2e48c5391",
    ),
    (
        0,
        hash::Kind::Sha256,
        "473a0f4c3be8a93681a267e3b1e9a7dcda1185436fe141f7749120a303721813",
    ),
    (
        1,
        hash::Kind::Sha1,
        "f76dd238ade08917e6712764a16a22005a50573d",
    ),
    (
        8191,
        hash::Kind::Sha1,
        "be54c745e46e6d5c2939431b4a95942a8c6ce614",
    ),
    (
        8192,
        hash::Kind::Sha1,
        "953a51a1258ea1a6d3e2812c52e25918578c1ded",
    ),
    (
        8192,
        hash::Kind::Sha256,
        "c0a82bf4142e83de106eb40a7608a4dd2644b62064c88f117d6f6b0d82d2ca4d",
    ),
    (
        8193,
        hash::Kind::Sha1,
        "fb05b6d314e2142a2cd349e03be9d0fa2df3fbe4",
    ),
    (
        8193,
        hash::Kind::Sha256,
        "9d89de7c1a9df4cc25ffe3b082cfc17d8cc4e2224d3e3f67d6abe9454c3da227",
    ),
];

/// Returns whether a content has this id, hashed as a slice, and as a stream that is read to its end.
fn has_id(content: &[u8], len: u64, hash: hash::Kind, id: Option<ObjectId>) -> bool {
    let mut stream = content;
    id == Some(compute_hash(hash, Kind::Blob, content))
        && id == compute_stream_hash(hash, Kind::Blob, &mut stream, len).ok()
        && stream.is_empty()
}

/// Hashes contents with lengths near that of one buffer, also byte by byte.
#[test]
fn hashes_sizes_near_buffer_length(rt: HostRuntime) {
    for &(len, hash, want) in SIZES {
        let content = content_of(rt.alloc(), len);
        let id = ObjectId::from_hex(want.as_bytes());
        assert!(rt; has_id(&content, len, hash, id), "{len}");
        let mut reader = byte_reader(&content, true);
        let read = compute_stream_hash(hash, Kind::Blob, &mut reader, len);
        assert!(rt; read.ok() == id, "{len}");
    }
}

/// Hashes a content of many buffers.
#[test]
fn hashes_ten_million_bytes(rt: HostRuntime) {
    let content = content_of(rt.alloc(), 10_000_000);
    let id = ObjectId::from_hex(b"95599bd33aac764385e09e5640f1a17e09df4e78");
    assert!(rt; has_id(&content, 10_000_000, hash::Kind::Sha1, id));
}
