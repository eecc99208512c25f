//! Columns of the encodings of objects of any kind.

use crate::answer::{Answer, Form};
use crate::fields::outcome_keyword;
use gixobj_base::WriteTo;

/// Encodes an object. Returns the name of the outcome, and the bytes.
pub fn encoded<T: WriteTo>(object: &T, answer: &Answer) -> (&'static str, Vec<u8>)
    requires { T.can_write object.now }
{
    let mut out = Vec::new(answer.alloc);
    let outcome = outcome_keyword(object.write_to(answer.alloc, &mut out));
    (outcome, out)
}

/// The column of an object's encoding.
pub fn write_encoding<T: WriteTo>(object: &T, answer: &mut Answer)
    requires { T.can_write object.now }
{
    let (outcome, out) = encoded(object, answer);
    answer.write_pair("written", outcome);
    answer.add_bytes(out.as_slice());
}

/// The columns of an object's size and of its loose header.
pub fn write_sizes<T: WriteTo>(object: &T, answer: &mut Answer)
    requires { T.can_write object.now }
{
    answer.write("size");
    answer.add_size(object.size());
    match object.loose_header(answer.alloc) {
        Some(header) => answer.write_in(Form::Hex, "loose", header.as_slice()),
        None => answer.write_pair("loose", "-"),
    }
}
