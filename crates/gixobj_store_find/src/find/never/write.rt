//! Writes to the store that keeps nothing.
ghost use Rattle.std.specs.Prelude.{◌≡◌, IfErr, IfOk, Ok, Some, length};
ghost use Rattle.gixobj_encode.specs.StreamHash.{ReadsObject, SkipsExactly};
ghost use Rattle.gixobj_hash.specs.Hash.{id_of};
ghost use Rattle.gixobj_hash.specs.declared.hash.kind.Kind.TheVariants.{Sha1};
ghost use Rattle.gixobj_store_find.specs.NeverWrites.{AnswersId, AnswersKnownId, IsReadError};
ghost use Rattle.gixobj_store_find.specs.Writers.{CannotEncode, IsWrittenObject};

use super::Never;
use crate::traits::Write;
use crate::write::Error;
use gixobj_encode::WriteTo;
use gixobj_encode::stream_hash::{compute_stream_hash, skip_stream};
use gixobj_hash::hash::ObjectId;
use gixobj_hash::{Kind, compute_hash, hash};
use std::alloc::Global;
use std::io::Read;

/// Returns ids and keeps nothing (git-hash-object, without `-w`). A successful call returns the SHA-1 id of
/// the object, or the id that the caller knows.
impl Write for Never {
    ghost answers = { λ store. AnswersId };

    ghost answers_known = { λ store. AnswersKnownId };

    /// Returns the SHA-1 id of the object. Allocates its encoding.
    ///
    /// # Errors
    ///
    /// - [`Error::Encode`] with the error of the encoding, if a value of the object is rejected.
    /// - [`Error::Encode`] with `Writer` of kind `OutOfMemory`, or with `OutOfMemory`, if an allocation fails.
    fn write<T: WriteTo>(&self, alloc: Global, object: &T) -> Result<ObjectId, Error>
        requires { T.can_write object.now }
        ensures written { IsWrittenObject AnswersId (T.object_kind object.now)
            (T.rejects object.now) (T.encoding object.now) result }
        ensures id { IfOk result (λ id. id
            ≡ id_of Sha1 (T.object_kind object.now) (T.encoding object.now)) }
        ensures error { IfErr result (λ _.
            CannotEncode (T.rejects object.now) (T.encoding object.now) result) }
    {
        let mut content = Vec::new(alloc);
        object.write_to_vec(alloc, &mut content)?;
        Ok(compute_hash(hash::Kind::Sha1, object.kind(), &content))
    }

    /// Returns the SHA-1 id of the object. Never fails. Allocates nothing.
    #[tactic(auto, using(crate::proofs::NeverResults::answers_id_of_content))]
    fn write_buf(&self, alloc: Global, kind: Kind, from: &[u8]) -> Result<ObjectId, Error>
        ensures answer { AnswersId kind (length from.now) (Some from.now) result }
        ensures id { result ≡ Ok (id_of Sha1 kind from.now) }
    {
        Ok(compute_hash(hash::Kind::Sha1, kind, from))
    }

    /// Returns the known id. Never fails. Allocates nothing.
    #[tactic(auto, using(crate::proofs::NeverResults::answers_known_id_of_content))]
    fn write_buf_with_known_id(
        &self,
        alloc: Global,
        kind: Kind,
        from: &[u8],
        id: ObjectId,
    ) -> Result<ObjectId, Error>
        ensures answer { AnswersKnownId id kind (length from.now) (Some from.now) result }
        ensures id { result ≡ Ok id }
    {
        Ok(id)
    }

    /// Reads exactly `size` bytes, and returns the SHA-1 id of the object. Allocates nothing.
    ///
    /// # Errors
    ///
    /// [`Error::Read`] with `Io` if the stream fails, or with `UnexpectedEof` if it ends before `size` bytes.
    /// Fewer than `size` bytes have then been read.
    fn write_stream<R: Read>(
        &self,
        alloc: Global,
        kind: Kind,
        size: u64,
        from: &mut R,
    ) -> Result<ObjectId, Error>
        ensures answer { AnswersId kind size (R.remaining from.old) result }
        ensures remaining { IfOk result (ReadsObject Sha1 kind (R.remaining from.old)
            (R.remaining from.new) size) }
        ensures error { IfErr result (IsReadError (R.remaining from.old) (R.remaining from.new)
            size) }
    {
        Ok(compute_stream_hash(hash::Kind::Sha1, kind, from, size)?)
    }

    /// Reads exactly `size` bytes, and returns the known id. Allocates nothing.
    ///
    /// # Errors
    ///
    /// [`Error::Read`] with `Io` if the stream fails, or with `UnexpectedEof` if it ends before `size` bytes.
    /// Fewer than `size` bytes have then been read.
    fn write_stream_with_known_id<R: Read>(
        &self,
        alloc: Global,
        kind: Kind,
        size: u64,
        from: &mut R,
        known: ObjectId,
    ) -> Result<ObjectId, Error>
        ensures answer { AnswersKnownId known kind size (R.remaining from.old) result }
        ensures id { IfOk result (λ it. it ≡ known) }
        ensures remaining { IfOk result (λ _.
            SkipsExactly (R.remaining from.old) (R.remaining from.new) size) }
        ensures error { IfErr result (IsReadError (R.remaining from.old) (R.remaining from.new)
            size) }
    {
        skip_stream(from, size)?;
        Ok(known)
    }
}
