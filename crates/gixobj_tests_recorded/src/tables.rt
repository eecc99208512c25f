//! The comparison of tables. A row is a question, a tab, and the answer.

use crate::answer::{Answer, Form};
use Form::{Escaped, Hex};
use Rows::{Long, Named, Pairs, Plain};
use gixobj_base::parse::{split_at_byte, split_at_last_byte};
use std::alloc::{AllocError, Global};
use std::io::{ErrorKind, Write};
use std::rt::Files;
use std::{fs, io};

/// The columns of the rows of a table.
#[derive(Clone, Copy)]
pub enum Rows {
    /// A question of one column, and the answer. Bytes are in hex digits.
    Plain,
    /// A question, and the answer in the last column. Bytes are in hex digits.
    Pairs,
    /// A name, a source, a question of one column, and the answer. Bytes have this format.
    Named(Form),
    /// A name, a source, a question, and the answer in the last column. Bytes have this format.
    Long(Form),
}

impl Rows {
    /// Splits a row into its question and its answer. `None` for a line that isn't a row.
    fn parts<'a>(self, line: &'a [u8]) -> Option<(&'a [u8], &'a [u8])> {
        match self {
            Plain => split_at_byte(line, b'\t'),
            Pairs => split_at_last_byte(line, b'\t'),
            Named(_) => split_at_byte(after_source(line)?, b'\t'),
            Long(_) => split_at_last_byte(after_source(line)?, b'\t'),
        }
    }

    /// The format of bytes.
    fn form(self) -> Form {
        match self {
            Plain | Pairs => Hex,
            Named(form) | Long(form) => form,
        }
    }
}

/// The columns after the name of a row and its source.
fn after_source(line: &[u8]) -> Option<&[u8]> {
    let (_name, line) = split_at_byte(line, b'\t')?;
    let (_from, line) = split_at_byte(line, b'\t')?;
    Some(line)
}

/// A comparison of tables. It ends at the first failure.
#[derive(Drop)]
pub struct Replay<'a, R: Files + Print + AllocGlobal> {
    rt: &'a R,
    /// Whether all answers agree.
    agrees: bool,
    /// The first failure: of a read, of a write, or of an allocation.
    failure: Option<io::Error>,
}

impl<'a, R: Files + Print + AllocGlobal> Replay<'a, R> {
    /// Begins a comparison.
    pub fn new(rt: &'a R) -> Replay<'a, R> {
        Replay {
            rt,
            agrees: true,
            failure: None,
        }
    }

    /// Ends a comparison. Returns whether all answers agree, or the first failure.
    pub fn end(self) -> io::Result<bool> {
        match self.failure {
            Some(error) => Err(error),
            None => Ok(self.agrees),
        }
    }

    /// Compares a table with the answers of a function, unless there was a failure.
    pub fn table<F: Fn(&[u8], &mut Answer)>(&mut self, name: &str, rows: Rows, write_answer: F)
        requires { F.IsAlwaysCallable write_answer }
    {
        if self.failure.is_some() {
            return;
        }
        match replay_one(self.rt, name, rows, write_answer) {
            Ok(agrees) => self.agrees = self.agrees && agrees,
            Err(error) => self.failure = Some(error),
        }
    }
}

/// Compares the answers of one table, and prints how many agree. Returns whether all agree.
fn replay_one<R: Files + Print + AllocGlobal, F: Fn(&[u8], &mut Answer)>(
    rt: &R,
    name: &str,
    rows: Rows,
    write_answer: F,
) -> io::Result<bool>
    requires { F.IsAlwaysCallable write_answer }
{
    let path = path_of(rt.alloc(), name);
    let content = fs::read(rt, str::from_utf8(path.as_slice()).unwrap_or(""))?;
    let mut out = io::writer(rt);
    match compare(rt.alloc(), content.as_slice(), rows, write_answer, &mut out) {
        Ok((same, all)) => {
            writeln!(out, "{name} {same} of {all}")?;
            Ok(same == all)
        }
        Err(_) => Err(io::Error::from(ErrorKind::OutOfMemory)),
    }
}

/// The path of the table of this name: hyphens for its spaces, and `.tsv`.
fn path_of(alloc: Global, name: &str) -> Answer {
    let mut path = Answer::new(alloc, Escaped);
    for byte in name.as_bytes() {
        path.push(&[if *byte == b' ' { b'-' } else { *byte }]);
    }
    path.push(b".tsv");
    path
}

/// Compares the answers of a table, and writes each row that differs. Returns how many answers agree, and how
/// many there are.
fn compare<F: Fn(&[u8], &mut Answer), W: Write>(
    alloc: Global,
    content: &[u8],
    rows: Rows,
    write_answer: F,
    out: &mut W,
) -> Result<(u64, u64), AllocError>
    requires { F.IsAlwaysCallable write_answer }
{
    let (mut same, mut all) = (0u64, 0u64);
    for line in content.split(|byte| *byte == b'\n') {
        if line.starts_with(b"#") {
            continue;
        }
        let Some((question, recorded)) = rows.parts(line) else {
            continue;
        };
        let mut answer = Answer::new(alloc, rows.form());
        write_answer(question, &mut answer);
        let answer = answer.finish()?;
        all = all.saturating_add(1);
        if answer.as_slice() == recorded {
            same = same.saturating_add(1);
        } else {
            write_difference(line, answer.as_slice(), out);
        }
    }
    Ok((same, all))
}

/// Writes a row that differs, and the answer to it.
fn write_difference<W: Write>(line: &[u8], answer: &[u8], out: &mut W) {
    let _ = out.write_all(line);
    let _ = out.write_all(b"\n  here: ");
    let _ = out.write_all(answer);
    let _ = out.write_all(b"\n");
}
