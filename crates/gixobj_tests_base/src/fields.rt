//! Header fields: their encodings.
//! The encodings follow gitdatamodel, "commits", and gitformat-signature, "Commit signatures".

use crate::helpers::{is_written, string_of};
use gixobj_actor::actor::Signature;
use gixobj_actor::date::Time;
use gixobj_actor::encode::trusted_header_signature;
use gixobj_encode::encode::{
    Error, header_field, header_field_multi_line, trusted_header_field, trusted_header_hex,
    trusted_header_id,
};
use gixobj_hash::hash::{Kind, ObjectId};
use gixobj_streams::streams::write_parts;

/// The encodings of parts and fields, in the order of the test.
const LINES: &[u8] = b"ab author A\nencoding UTF-8\n\
    tree 4b825dc642cb6eb9a060e54bf8d69288fbee4904\n\
    tree 4b825dc642cb6eb9a060e54bf8d69288fbee4904\n\
    x A\n \n B\n";

/// Hex digits are written in lower case.
#[test]
fn writes_parts_and_fields(rt: HostRuntime) {
    let mut out = Vec::new(rt.alloc());
    let id = ObjectId::empty_tree(Kind::Sha1);
    let hex = b"4B825DC642cb6eb9a060e54bf8d69288FBEE4904";
    assert!(rt; is_written(write_parts(&[b"a", b"", b"b "], &mut out)));
    assert!(rt; is_written(trusted_header_field(b"author", b"A", &mut out)));
    assert!(rt; is_written(header_field(rt.alloc(), b"encoding", b"UTF-8", &mut out)));
    assert!(rt; is_written(trusted_header_id(b"tree", &id, &mut out)));
    assert!(rt; is_written(trusted_header_hex(b"tree", hex, &mut out)));
    assert!(rt; is_written(header_field_multi_line(b"x", b"A\n\nB\n", &mut out)));
    assert!(rt; out.as_slice() == LINES);
}

#[test]
fn writes_fields_of_actors(rt: HostRuntime) {
    let alloc = rt.alloc();
    let actor = Signature {
        name: string_of(alloc, b"A"),
        email: string_of(alloc, b"a@b"),
        time: Time::new(1, 0).unwrap_or_default(),
    };
    let mut out = Vec::new(alloc);
    assert!(rt; is_written(trusted_header_signature(b"author", &actor, &mut out)));
    assert!(rt; out.as_slice() == b"author A <a@b> 1 +0000\n".as_slice());
}

#[test]
fn rejects_empty_value_and_newline(rt: HostRuntime) {
    let alloc = rt.alloc();
    let mut out = Vec::new(alloc);
    let empty = header_field(alloc, b"encoding", b"", &mut out);
    assert!(rt; matches!(empty, Err(Error::EmptyValue)));
    let newline = header_field(alloc, b"encoding", b"a\nb", &mut out);
    assert!(rt; matches!(newline, Err(Error::NewlineInHeaderValue { .. })));
    assert!(rt; out.is_empty());
}
