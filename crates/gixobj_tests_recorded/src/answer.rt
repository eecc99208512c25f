//! An answer in the format of the tables: columns separated by tabs, of tokens and values separated by
//! spaces.

use crate::fields::{bytes_of, fault, outcome_keyword, push_unescaped};
use bstr::{BStr, BString};
use gixobj_base::hash::ObjectId;
use gixobj_base::{decode, encode};
use std::alloc::{AllocError, Global};
use std::fmt::Display;

/// The format of bytes.
#[derive(Clone, Copy)]
pub enum Form {
    /// `x` and hex digits.
    Hex,
    /// Escaped, in quotes.
    Quoted,
    /// Escaped.
    Escaped,
}

/// What the names of columns begin with.
#[derive(Clone, Copy)]
pub enum Prefix {
    /// Nothing.
    Empty,
    /// `owned-`, of an owned form.
    Owned,
    /// `token `, of a token of an iterator.
    Token,
    /// `iter-`, of a call on an iterator.
    Iter,
}

impl Prefix {
    /// The bytes of the prefix.
    fn as_bytes(self) -> &'static [u8] {
        match self {
            Prefix::Empty => b"",
            Prefix::Owned => b"owned-",
            Prefix::Token => b"token ",
            Prefix::Iter => b"iter-",
        }
    }
}

/// The bytes of an answer. It records whether an allocation failed.
#[derive(Drop)]
pub struct Answer {
    pub alloc: Global,
    /// The format of bytes in the rows of the table.
    pub form: Form,
    /// What the names of columns begin with.
    pub prefix: Prefix,
    bytes: Vec<u8>,
    is_entire: bool,
}

impl Answer {
    /// An empty answer with bytes in this format.
    pub fn new(alloc: Global, form: Form) -> Answer {
        Answer {
            alloc,
            form,
            prefix: Prefix::Empty,
            bytes: Vec::new(alloc),
            is_entire: true,
        }
    }

    /// An empty answer in the format of this one.
    pub fn part(&self) -> Answer {
        Answer::new(self.alloc, self.form)
    }

    /// The bytes of the answer.
    pub fn as_slice(&self) -> &[u8] {
        self.bytes.as_slice()
    }

    /// The bytes of the answer, or an error if an allocation failed.
    pub fn finish(self) -> Result<Vec<u8>, AllocError> {
        if self.is_entire {
            Ok(self.bytes)
        } else {
            Err(AllocError)
        }
    }

    /// Records an allocation failure.
    pub fn fail(&mut self) {
        self.is_entire = false;
    }

    /// The bytes of another answer. Records its allocation failure.
    pub fn taken(&mut self, other: Answer) -> Vec<u8> {
        self.is_entire = self.is_entire && other.is_entire;
        other.bytes
    }

    /// The bytes of a field of the question, which has them in the format of the table.
    pub fn input(&mut self, field: &[u8]) -> Vec<u8> {
        match self.form {
            Form::Hex => bytes_of(self.alloc, field),
            _ => self.unescape(field),
        }
    }

    /// Unescapes bytes.
    pub fn unescape(&mut self, field: &[u8]) -> Vec<u8> {
        let mut bytes = self.part();
        push_unescaped(field, &mut bytes);
        self.taken(bytes)
    }

    /// Copies bytes.
    pub fn copied(&mut self, bytes: &[u8]) -> BString {
        match BString::from_slice(self.alloc, bytes) {
            Ok(copy) => copy,
            Err(_) => {
                self.fail();
                BString::new(Vec::new(self.alloc))
            }
        }
    }

    /// Appends bytes.
    pub fn push(&mut self, bytes: &[u8]) {
        if self.bytes.extend_from_slice(bytes).is_err() {
            self.fail();
        }
    }

    /// Appends a value as it is displayed.
    pub fn push_shown<D: Display + Drop>(&mut self, value: D) {
        match String::format(self.alloc, value) {
            Ok(shown) => self.push(shown.as_bytes()),
            Err(_) => self.fail(),
        }
    }

    /// Appends bytes, escaped.
    pub fn push_escaped(&mut self, bytes: &[u8]) {
        for byte in bytes {
            self.push_byte(*byte);
        }
    }

    /// Appends a byte, escaped.
    fn push_byte(&mut self, byte: u8) {
        match byte {
            b'\n' => self.push(b"\\n"),
            b'\t' => self.push(b"\\t"),
            0 => self.push(b"\\0"),
            b'\\' | 1..=31 | 127..=255 => self.push_shown(format_args!("\\x{byte:02x}")),
            _ => self.push(&[byte]),
        }
    }

    /// Appends bytes in this format.
    pub fn push_in(&mut self, form: Form, bytes: &[u8]) {
        match form {
            Form::Hex => self.push_hex(bytes),
            Form::Escaped => self.push_escaped(bytes),
            Form::Quoted => {
                self.push(b"\"");
                self.push_escaped(bytes);
                self.push(b"\"");
            }
        }
    }

    /// Appends `x` and bytes in hex digits.
    fn push_hex(&mut self, bytes: &[u8]) {
        self.push(b"x");
        match hex::encode(self.alloc, bytes) {
            Ok(digits) => self.push(digits.as_bytes()),
            Err(_) => self.fail(),
        }
    }

    /// Appends bytes in the format of the table.
    pub fn push_bytes(&mut self, bytes: &[u8]) {
        self.push_in(self.form, bytes);
    }

    /// Appends the name of each predicate that holds, after a separator.
    pub fn push_holding(&mut self, separator: &[u8], tests: &[(bool, &str)]) {
        for (holds, token) in tests {
            if *holds {
                self.push(separator);
                self.push(token.as_bytes());
            }
        }
    }

    /// Appends another answer, and records its allocation failure.
    pub fn push_answer(&mut self, other: &Answer) {
        self.push(other.as_slice());
        self.is_entire = self.is_entire && other.is_entire;
    }
}

/// Values after a space.
impl Answer {
    /// Adds a token.
    pub fn add(&mut self, token: &str) {
        self.push(b" ");
        self.push(token.as_bytes());
    }

    /// Adds a value as it is displayed.
    pub fn add_shown<D: Display + Drop>(&mut self, value: D) {
        self.push(b" ");
        self.push_shown(value);
    }

    /// Adds bytes in this format.
    pub fn add_in(&mut self, form: Form, bytes: &[u8]) {
        self.push(b" ");
        self.push_in(form, bytes);
    }

    /// Adds bytes in the format of the table.
    pub fn add_bytes(&mut self, bytes: &[u8]) {
        self.add_in(self.form, bytes);
    }

    /// Adds bytes in the format of the table, or `-`.
    pub fn add_if_some(&mut self, bytes: Option<BStr<'_>>) {
        match bytes {
            Some(bytes) => self.add_bytes(bytes.as_bytes()),
            None => self.add("-"),
        }
    }

    /// Adds a count of bytes, or `-`.
    pub fn add_size(&mut self, size: Option<u64>) {
        match size {
            Some(size) => self.add_shown(size),
            None => self.add("-"),
        }
    }
}

/// Columns, which begin with a token.
impl Answer {
    /// Writes a column: a token.
    pub fn write(&mut self, token: &str) {
        if !self.bytes.is_empty() {
            self.push(b"\t");
        }
        self.push(self.prefix.as_bytes());
        self.push(token.as_bytes());
    }

    /// Writes a column: two tokens.
    pub fn write_pair(&mut self, token: &str, value: &str) {
        self.write(token);
        self.add(value);
    }

    /// Writes a column: a token, and a value as it is displayed.
    pub fn write_shown<D: Display + Drop>(&mut self, token: &str, value: D) {
        self.write(token);
        self.add_shown(value);
    }

    /// Writes a column: a token, and bytes in this format.
    pub fn write_in(&mut self, form: Form, token: &str, bytes: &[u8]) {
        self.write(token);
        self.add_in(form, bytes);
    }

    /// Writes a column: a token, and bytes in the format of the table.
    pub fn write_bytes(&mut self, token: &str, bytes: &[u8]) {
        self.write_in(self.form, token, bytes);
    }

    /// Writes a column: a token, and bytes. For missing bytes `-` in hex, and else no column.
    pub fn write_if_some(&mut self, token: &str, bytes: Option<BStr<'_>>) {
        match (bytes, self.form) {
            (Some(bytes), _) => self.write_bytes(token, bytes.as_bytes()),
            (None, Form::Hex) => self.write_pair(token, "-"),
            (None, _) => {}
        }
    }

    /// Writes a column: a token, and `ok` or the name of the error.
    pub fn write_result<T>(&mut self, token: &str, outcome: &Result<T, decode::Error>) {
        match outcome {
            Ok(_) => self.write_pair(token, "ok"),
            Err(error) => self.write_pair(token, fault(error)),
        }
    }

    /// Writes a column: a token, and an id or the name of the error.
    pub fn write_id(&mut self, token: &str, id: Result<ObjectId, decode::Error>) {
        match id {
            Ok(id) => self.write_shown(token, id),
            Err(error) => self.write_pair(token, fault(&error)),
        }
    }

    /// Writes a column: a token, the name of an outcome of encoding, and the encoding.
    pub fn write_outcome(&mut self, token: &str, outcome: Result<(), encode::Error>, bytes: &[u8]) {
        self.write_pair(token, outcome_keyword(outcome));
        self.add_bytes(bytes);
    }

    /// Writes a column: a token, and `same` if the other answer equals `wanted`, else the other answer.
    pub fn write_same_or(&mut self, token: &str, other: &Answer, wanted: &Answer) {
        self.write(token);
        self.push(b" ");
        if other.bytes == wanted.bytes {
            self.push(b"same");
        } else {
            self.push_answer(other);
        }
    }
}
