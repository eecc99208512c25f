//! Answers about loose objects.
ghost use Rattle.gixobj_codec.specs.BorrowedObjects.{HasObjectIds, IsReadyToWrite};

use gixobj_base::{WriteTo, compute_hash, decode, hash};
use gixobj_codec::{Data, DataExt, LooseDecodeError, Object, ObjectRef};
use gixobj_tests_recorded::answer::Answer;
use gixobj_tests_recorded::fields::{bytes_and_kind, fault, kind_and_bytes};
use gixobj_tests_recorded::objects::{encoded, write_encoding, write_sizes};

/// The columns of an object's encoding, or that it is the input, and of its size if encoding succeeds.
pub(crate) fn write_next_to<T: WriteTo>(token: &str, object: &T, input: &[u8], answer: &mut Answer)
    requires { T.can_write object.now }
{
    let (outcome, out) = encoded(object, answer);
    answer.write_pair(token, outcome);
    if out.as_slice() == input {
        answer.add("same");
    } else {
        answer.add_bytes(out.as_slice());
    }
    if outcome == "ok" {
        write_sizes(object, answer);
    }
}

/// Answers with a decoded loose object and its encoding.
pub(crate) fn object_answer(question: &[u8], answer: &mut Answer) {
    let (bytes, hash_kind) = bytes_and_kind(question, answer);
    match ObjectRef::from_loose(answer.alloc, bytes.as_slice(), hash_kind) {
        Ok(object) => write_encoded(&object, answer),
        Err(error) => answer.write_pair("err", case_of(&error)),
    }
}

/// The columns of an object's kind, its encoding and its size.
fn write_encoded(object: &ObjectRef<'_>, answer: &mut Answer)
    requires { IsReadyToWrite object.now }
{
    answer.write_shown("ok", object.kind());
    write_encoding(object, answer);
    write_sizes(object, answer);
}

/// The case of an error.
fn case_of(error: &LooseDecodeError) -> &'static str {
    match error {
        LooseDecodeError::InvalidHeader(_) => "InvalidHeader",
        LooseDecodeError::InvalidContent(_) => "InvalidContent",
        LooseDecodeError::OutOfMemory { .. } => "OutOfMemory",
    }
}

/// Answers with a loose object in escaped bytes: decoded, encoded, decoded again and copied.
pub(crate) fn loose_answer(question: &[u8], answer: &mut Answer) {
    let (hash_kind, bytes) = kind_and_bytes(question, answer);
    match ObjectRef::from_loose(answer.alloc, bytes.as_slice(), hash_kind) {
        Ok(object) => write_object(object, hash_kind, answer),
        Err(error) => answer.write_pair("err", case_of(&error)),
    }
}

/// The columns of an object.
fn write_object(object: ObjectRef<'_>, hash_kind: hash::Kind, answer: &mut Answer)
    requires encodable { IsReadyToWrite object }
    requires ids { HasObjectIds object }
{
    let content = write_borrowed(&object, hash_kind, answer);
    write_owned(object.into_owned(answer.alloc), content.as_slice(), answer);
}

/// The columns of a borrowed object. Returns its encoding.
fn write_borrowed(object: &ObjectRef<'_>, hash_kind: hash::Kind, answer: &mut Answer) -> Vec<u8>
    requires { IsReadyToWrite object.now }
{
    let kind = object.kind();
    answer.write_shown("ok", kind);
    write_next_to("written", object, b"", answer);
    let (_, content) = encoded(object, answer);
    answer.write_shown("id", compute_hash(hash_kind, kind, content.as_slice()));
    write_again(object, content.as_slice(), hash_kind, answer);
    content
}

/// The column of whether the encoding decodes to the same object.
fn write_again(object: &ObjectRef<'_>, content: &[u8], hash_kind: hash::Kind, answer: &mut Answer) {
    let again = Data::new(content, object.kind(), hash_kind).decode(answer.alloc);
    answer.write_pair("decoded", same_object(&again, object));
}

/// Whether the encoding decodes to the same object.
fn same_object(
    again: &Result<ObjectRef<'_>, decode::Error>,
    object: &ObjectRef<'_>,
) -> &'static str {
    match again {
        Ok(again) if again == object => "same",
        Ok(_) => "another",
        Err(error) => fault(error),
    }
}

/// The columns of an owned object, or of the error.
fn write_owned(owned: Result<Object, decode::Error>, content: &[u8], answer: &mut Answer) {
    match owned {
        Ok(object) => write_next_to("owned", &object, content, answer),
        Err(error) => answer.write_pair("owned", fault(&error)),
    }
}
