//! A store that records the streams that are written into it.

use crate::samples::id_of_bytes;
use gixobj_hash::Kind;
use gixobj_hash::hash::ObjectId;
use gixobj_store_find::find::Never;
use gixobj_store_find::{Write, write};
use std::alloc::Global;
use std::cell::Cell;
use std::io::Read;

/// A store that reads the declared size of each stream, and returns its id. It keeps only that id, and the
/// number of streams.
#[derive(Drop)]
pub(crate) struct Recorder {
    /// The number of streams that were read.
    pub(crate) streams: Cell<u64>,
    /// The id of the last of them, of its kind, size and bytes.
    pub(crate) last: Cell<ObjectId>,
}

impl Recorder {
    /// Makes a store that has read no stream.
    pub(crate) fn new() -> Recorder {
        Recorder {
            streams: Cell::new(0),
            last: Cell::new(id_of_bytes(0)),
        }
    }
}

impl Write for Recorder {
    ghost use Rattle.std.specs.Prelude.{⊤};

    ghost answers = { λ store kind size bytes result. ⊤ };

    ghost answers_known = { λ store id kind size bytes result. ⊤ };

    fn write_buf_with_known_id(
        &self,
        alloc: Global,
        kind: Kind,
        from: &[u8],
        id: ObjectId,
    ) -> Result<ObjectId, write::Error> {
        self.write_buf(alloc, kind, from)?;
        Ok(id)
    }

    fn write_stream<R: Read>(
        &self,
        alloc: Global,
        kind: Kind,
        size: u64,
        from: &mut R,
    ) -> Result<ObjectId, write::Error> {
        let id = Never.write_stream(alloc, kind, size, from)?;
        self.streams.set(self.streams.get().saturating_add(1));
        self.last.set(id);
        Ok(id)
    }

    fn write_stream_with_known_id<R: Read>(
        &self,
        alloc: Global,
        kind: Kind,
        size: u64,
        from: &mut R,
        id: ObjectId,
    ) -> Result<ObjectId, write::Error> {
        self.write_stream(alloc, kind, size, from)?;
        Ok(id)
    }
}
