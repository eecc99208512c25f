//! A writer and a reader that fail, for tests.

use gixobj_base::encode::Error;
use std::io;
use std::io::{ErrorKind, Read, Write};

/// A writer that appends `room` more bytes to `held`, and then fails with `StorageFull`.
#[derive(Drop)]
pub struct Limited {
    /// The bytes written so far.
    pub held: Vec<u8>,
    /// How many more bytes are accepted.
    pub room: usize,
}

impl Write for Limited {
    fn write(&mut self, buf: &[u8]) -> io::Result<usize> {
        if self.room == 0 {
            return Err(io::Error::from(ErrorKind::StorageFull));
        }
        let taken = self.room.min(buf.len());
        self.held.extend_from_slice(&buf[..taken])?;
        self.room -= taken;
        Ok(taken)
    }

    fn flush(&mut self) -> io::Result<()> {
        Ok(())
    }
}

impl Limited {
    /// Returns whether `outcome` is a writer's error and `held` is the first `room` bytes of `content`.
    pub fn stopped_at(&self, outcome: &Result<(), Error>, content: &[u8], room: usize) -> bool {
        matches!(outcome, Err(Error::Writer(_)))
            && Some(self.held.as_slice()) == content.get(..room)
    }
}

/// A reader that returns at most `step` bytes of `rest` per call.
///
/// After the last byte it ends or, if `fails`, fails with `ConnectionReset`.
#[derive(Drop)]
pub struct Stepping<'a> {
    /// The remaining bytes.
    pub rest: &'a [u8],
    /// The maximum number of bytes per call.
    pub step: usize,
    /// Whether it fails after the last byte.
    pub fails: bool,
}

impl Read for Stepping<'_> {
    fn read(&mut self, buf: &mut [u8]) -> io::Result<usize> {
        if self.rest.is_empty() && self.fails {
            return Err(io::Error::from(ErrorKind::ConnectionReset));
        }
        let count = self.step.min(self.rest.len()).min(buf.len());
        let (prefix, rest) = self.rest.split_at(count);
        buf[..count].copy_from_slice(prefix);
        self.rest = rest;
        Ok(count)
    }
}
