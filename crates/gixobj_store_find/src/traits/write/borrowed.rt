//! The trait [`Write`](crate::Write) of a borrowed store, with the results of the store.

use crate::traits::Write;
use crate::write::Error;
use gixobj_encode::WriteTo;
use gixobj_hash::Kind;
use gixobj_hash::hash::ObjectId;
use std::alloc::Global;
use std::io::Read;

impl<T: Write> Write for &T {
    ghost answers = { λ store. T.answers store.now };

    ghost answers_known = { λ store. T.answers_known store.now };

    fn write<O: WriteTo>(&self, alloc: Global, object: &O) -> Result<ObjectId, Error> {
        (**self).write(alloc, object)
    }

    fn write_buf(&self, alloc: Global, kind: Kind, from: &[u8]) -> Result<ObjectId, Error> {
        (**self).write_buf(alloc, kind, from)
    }

    fn write_buf_with_known_id(
        &self,
        alloc: Global,
        kind: Kind,
        from: &[u8],
        id: ObjectId,
    ) -> Result<ObjectId, Error> {
        (**self).write_buf_with_known_id(alloc, kind, from, id)
    }

    fn write_stream<R: Read>(
        &self,
        alloc: Global,
        kind: Kind,
        size: u64,
        from: &mut R,
    ) -> Result<ObjectId, Error> {
        (**self).write_stream(alloc, kind, size, from)
    }

    fn write_stream_with_known_id<R: Read>(
        &self,
        alloc: Global,
        kind: Kind,
        size: u64,
        from: &mut R,
        id: ObjectId,
    ) -> Result<ObjectId, Error> {
        (**self).write_stream_with_known_id(alloc, kind, size, from, id)
    }
}
