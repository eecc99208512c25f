//! Sources and sinks of bytes, whose contracts say when a call may fail.
//!
//! std's `Read` and `Write` leave every failure open, and so does a contract over them. A contract over a
//! [`Source`] or a [`Sink`] says more. A read of a slice always succeeds. A `Vec` fails only if it has no
//! room for the bytes. [`FromRead`] and [`ToWrite`] adapt any reader or writer, which may then fail at
//! every call.
ghost use Rattle.std.specs.Prelude.{◌≡◌, ℕ, List, Option, Some, OnErr, ⊤};
ghost use Rattle.std.specs.Io.{ReadsAtMost, WritesAtMost};
ghost use Rattle.std.specs.Io.KnownBytes.{ReadConsumes, WriteAppends};
ghost use Rattle.std.specs.List.{flat_map};
ghost use Rattle.gixobj_streams.specs.Streams.{AppendsOrFails, list_view, writer_view};

use std::io;
use std::io::{ErrorKind, Read, Write};

/// A reader whose contract says whether a call may fail. [`FromRead`] makes one of any reader.
pub trait Source {
    /// The remaining bytes, if they are known.
    ghost rest: { Self → Option (List ℕ) };

    /// Whether a call may fail.
    ghost may_fail: { Self → Type 0 };

    /// The loan of the input, if the source borrows one. Every call leaves it unchanged.
    ghost loan: { Self → ℕ };

    /// Reads some of the remaining bytes into the beginning of the buffer, and returns their number.
    ///
    /// The number is 0 only at the end of the input or for an empty buffer. What the call allocates depends
    /// on the reader.
    ///
    /// # Errors
    ///
    /// The error of the reader, only if `may_fail` holds. Nothing has then been read.
    fn read_some(&mut self, buffer: &mut [u8]) -> io::Result<usize>
        ensures bound { ReadsAtMost result buffer.new }
        ensures bytes { ReadConsumes (rest self.old) (rest self.new) result buffer.new }
        ensures error { OnErr result (may_fail self.old) }
        ensures stays_valid { may_fail self.new → may_fail self.old }
        ensures same_loan { loan self.new ≡ loan self.old };
}

/// A slice is a source that never fails.
impl Source for &[u8] {
    ghost rest = { λ s. Some s.now };

    ghost may_fail = { λ _. ⊥ };

    ghost loan = { λ _. 0 };

    fn read_some(&mut self, buffer: &mut [u8]) -> io::Result<usize> {
        self.read(buffer)
    }
}

/// Any reader as a source that may fail at every call. An interrupted read is retried.
#[derive(Drop)]
pub struct FromRead<'a, R>(pub &'a mut R);

impl<R: Read> Source for FromRead<'_, R> {
    ghost rest = { λ s. R.remaining s.0.now };

    ghost may_fail = { λ _. ⊤ };

    ghost loan = { λ s. s.0.ghost_name };

    fn read_some(&mut self, buffer: &mut [u8]) -> io::Result<usize> {
        for _ in 0..u64::MAX {
            match self.0.read(buffer) {
                Err(e) if e.kind() == ErrorKind::Interrupted => {}
                result => return result,
            }
        }
        Err(io::Error::from(ErrorKind::Interrupted))
    }
}

/// A writer whose contract says when a call may fail. [`ToWrite`] makes one of any writer.
pub trait Sink {
    ghost use Rattle.gixobj_streams.specs.Streams.{SinkView};

    /// The written bytes, if they are known, how many more bytes are certain to be accepted, and the kind of
    /// the errors, if it is known.
    ghost view: { Self → SinkView };

    /// The loan of the output, if the sink borrows one. Every call leaves it unchanged.
    ghost loan: { Self → ℕ };

    /// Appends all the bytes. What the call allocates depends on the writer.
    ///
    /// # Errors
    ///
    /// The error of the writer, of the known kind, only if the sink has no room for the bytes. A proper prefix
    /// of them has then been written.
    fn write_bytes(&mut self, bytes: &[u8]) -> io::Result<()>
        ensures appended { AppendsOrFails result (view self.old) (view self.new) bytes.now }
        ensures same_loan { loan self.new ≡ loan self.old };
}

/// An append to a `Vec` fails only if it needs capacity that can't be allocated. It then appends nothing,
/// and the error is of kind `OutOfMemory`.
impl Sink for Vec<u8> {
    ghost view = { list_view };

    ghost loan = { λ _. 0 };

    #[inline(always)]
    fn write_bytes(&mut self, bytes: &[u8]) -> io::Result<()> {
        self.extend_from_slice(bytes)?;
        Ok(())
    }
}

/// Any writer as a sink that may fail at every call. An interrupted write is retried.
#[derive(Drop)]
pub struct ToWrite<'a, W>(pub &'a mut W);

impl<W: Write> Sink for ToWrite<'_, W> {
    ghost view = { λ s. writer_view (W.contents s.0.now) };

    ghost loan = { λ s. s.0.ghost_name };

    #[inline(always)]
    fn write_bytes(&mut self, bytes: &[u8]) -> io::Result<()> {
        let mut rest = bytes;
        while !rest.is_empty() {
            let count = self.write_some(rest)?;
            if count == 0 {
                return Err(io::Error::from(ErrorKind::WriteZero));
            }
            rest = &rest[count..];
        }
        Ok(())
    }
}

impl<W: Write> ToWrite<'_, W> {
    /// Writes some of the bytes, and returns their number.
    #[inline(always)]
    fn write_some(&mut self, bytes: &[u8]) -> io::Result<usize>
        ensures bound { WritesAtMost result bytes.now }
        ensures bytes { WriteAppends (W.contents self.old.0.now) (W.contents self.new.0.now) result
            bytes.now }
        ensures same_loan { self.new.0.ghost_name ≡ self.old.0.ghost_name }
    {
        for _ in 0..u64::MAX {
            match self.0.write(bytes) {
                Err(e) if e.kind() == ErrorKind::Interrupted => {}
                result => return result,
            }
        }
        Err(io::Error::from(ErrorKind::Interrupted))
    }
}

/// Appends byte strings to a sink in order. Only the sink may allocate.
///
/// # Errors
///
/// The error of the sink, only if it has no room for all the bytes. A proper prefix of them has then been
/// written.
#[inline(always)]
pub fn write_parts<S: Sink>(parts: &[&[u8]], sink: &mut S) -> io::Result<()>
    ensures appended { AppendsOrFails result (S.view sink.old) (S.view sink.new)
        (flat_map (λ part. part.now) parts.now) }
    ensures same_loan { S.loan sink.new ≡ S.loan sink.old }
{
    for part in parts {
        sink.write_bytes(part)?;
    }
    Ok(())
}
