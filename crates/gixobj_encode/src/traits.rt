//! The trait of objects that can be encoded and written.
ghost use Rattle.std.specs.Prelude.{◌≡◌, ◌↔◌, ◌<◌, ◌≤◌, ◌^◌, ◌++◌, List, length, vec_capacity, IfErr, IfOk, IfSome};
ghost use Rattle.std.specs.Prelude.{IsSome, OnOk};
ghost use Rattle.std.specs.Io.KnownBytes.{Appends};
ghost use Rattle.std.specs.Option.{SomeIff};
ghost use Rattle.gixobj_hash.specs.Encode.{encode_loose_header};
ghost use Rattle.gixobj_hash.specs.Hash.{id_of};
ghost use Rattle.gixobj_streams.specs.Streams.{AppendsAll, list_view, writer_view};
ghost use Rattle.gixobj_streams.specs.Writing.{IsEncodingError, IsSize, IsWritingError, LacksRoom, RejectsNothing};

use crate::encode;
use gixobj_hash::digest::compute_hash;
use gixobj_hash::encode::loose_header;
use gixobj_hash::hash::ObjectId;
use gixobj_hash::{Kind, hash};
use gixobj_streams::streams::{Sink, ToWrite};
use smallvec::SmallVec;
use std::alloc::Global;
use std::io::Write;

/// An object that can be encoded and written.
///
/// An implementation defines the encoding and the rejected values, and writes to a [`Sink`]. The other
/// calls write through [`WriteTo::write_into`].
pub trait WriteTo {
    ghost use Rattle.std.specs.Prelude.{ℕ, List, ⊤};
    ghost use Rattle.gixobj_streams.specs.Writing.{RejectedValue};
    ghost use Rattle.gixobj_hash.specs.declared.kind.Kind.{Kind};

    /// The precondition of the calls that write. It is true by default. A type with public fields that
    /// are decoded as ids restricts it.
    ghost can_write: { Self → Type 0 } = { λ _. ⊤ };

    /// The kind of the object.
    ghost object_kind: { Self → Kind };

    /// The encoding of the object, with rejected values in it.
    ghost encoding: { Self → List ℕ };

    /// Whether this value is rejected, and these are the parts of the encoding before it.
    ghost rejects: { Self → RejectedValue → List ℕ → Type 0 };

    /// Appends the encoding of the object to a sink. Only the sink and the copy of a rejected value allocate.
    ///
    /// # Errors
    ///
    /// - [`encode::Error::Writer`] with the error of the sink, if it failed. A proper prefix of the encoding
    ///   has then been written. If the object has a rejected value, the sink had less room than the parts
    ///   before it.
    /// - [`encode::Error::OutOfMemory`] if the allocation of a copy of a rejected value failed.
    /// - Any other [`encode::Error`] if the object has the value that the error names.
    ///
    /// At the last two, exactly the parts before the rejected value have been written.
    fn write_into<S: Sink>(&self, alloc: Global, sink: &mut S) -> Result<(), encode::Error>
        requires { can_write self.now }
        ensures written { OnOk result (AppendsAll (S.view sink.old) (S.view sink.new)
            (encoding self.now)) }
        ensures no_error { OnOk result (RejectsNothing (rejects self.now)) }
        ensures error { IfErr result (IsWritingError (rejects self.now) (S.view sink.old)
            (S.view sink.new) (encoding self.now)) }
        ensures room { IfErr result (LacksRoom (rejects self.now) (S.view sink.old)) }
        ensures same_loan { S.loan sink.new ≡ S.loan sink.old };

    /// Returns the kind of the object. Allocates nothing.
    fn kind(&self) -> Kind
        ensures { result ≡ object_kind self.now };

    /// Returns the length in bytes of the output of [`WriteTo::write_to`], or `None` if it exceeds 64
    /// bits.
    ///
    /// An object with a rejected value has a size too, which counts that value unchanged. Allocates
    /// nothing.
    fn size(&self) -> Option<u64>
        requires { can_write self.now }
        ensures { IsSize result (encoding self.now) };

    /// Writes the encoding of the object to a writer. Only the writer and the copy of a rejected value
    /// allocate.
    ///
    /// # Errors
    ///
    /// - [`encode::Error::Writer`] if the writer failed. A proper prefix of the encoding has then been
    ///   written.
    /// - [`encode::Error::OutOfMemory`] if the allocation of a copy of a rejected value failed.
    /// - Any other [`encode::Error`] if the object has the value that the error names.
    ///
    /// At the last two, exactly the parts before the rejected value have been written.
    ///
    /// # Examples
    ///
    /// ```rust
    /// let mut content = Vec::new(alloc);
    /// tree.write_to(alloc, &mut content)?;
    /// Ok(content)
    /// ```
    final fn write_to<W: Write>(&self, alloc: Global, out: &mut W) -> Result<(), encode::Error>
        requires { can_write self.now }
        ensures written { OnOk result (Appends (W.contents out.old) (W.contents out.new)
            (encoding self.now)) }
        ensures no_error { OnOk result (RejectsNothing (rejects self.now)) }
        ensures error { IfErr result (IsWritingError (rejects self.now)
            (writer_view (W.contents out.old)) (writer_view (W.contents out.new)) (encoding self.now)) }
        ensures room { IfErr result (LacksRoom (rejects self.now)
            (writer_view (W.contents out.old))) }
    {
        self.write_into(alloc, &mut ToWrite(out))
    }

    /// Appends the encoding of the object to a list. Only the list and the copy of a rejected value
    /// allocate. A list without capacity first reserves the entire size.
    ///
    /// # Errors
    ///
    /// - [`encode::Error::Writer`] of kind `OutOfMemory`, if the list has too little capacity and an
    ///   allocation failed. A proper prefix of the encoding has then been appended. If the object has a
    ///   rejected value, the list had less capacity than the parts before it.
    /// - [`encode::Error::OutOfMemory`] if the allocation of a copy of a rejected value failed.
    /// - Any other [`encode::Error`] if the object has the value that the error names.
    ///
    /// At the last two, exactly the parts before the rejected value have been appended.
    ///
    /// # Examples
    ///
    /// ```rust
    /// pub fn written(alloc: Global, commit: &Commit) -> Result<(ObjectId, Vec<u8>), encode::Error> {
    ///     let mut bytes = Vec::new(alloc);
    ///     commit.write_to_vec(alloc, &mut bytes)?;
    ///     Ok((compute_hash(HashKind::Sha1, Kind::Commit, &bytes), bytes))
    /// }
    /// ```
    #[tactic(auto, using(gixobj_streams::proofs::Errors::rejects_with_more_room, gixobj_streams::proofs::Errors::lacks_room_with_more_room))]
    final fn write_to_vec(&self, alloc: Global, out: &mut Vec<u8>) -> Result<(), encode::Error>
        requires { can_write self.now }
        ensures written { OnOk result (out.new.items ≡ out.old.items ++ encoding self.now) }
        ensures no_error { OnOk result (RejectsNothing (rejects self.now)) }
        ensures error { IfErr result (IsWritingError (rejects self.now) (list_view out.old)
            (list_view out.new) (encoding self.now)) }
        ensures room { IfErr result (LacksRoom (rejects self.now) (list_view out.old)) }
    {
        make_room(self, out);
        self.write_into(alloc, out)
    }

    /// Computes the id of the object: the digest of its loose header and its encoding, by this kind of hash
    /// (git-hash-object). Allocates the encoding.
    ///
    /// # Errors
    ///
    /// - [`encode::Error::Writer`] of kind `OutOfMemory`, if the allocation of the encoding failed.
    /// - [`encode::Error::OutOfMemory`] if the allocation of a copy of a rejected value failed.
    /// - Any other [`encode::Error`] if the object has the value that the error names.
    final fn compute_id(&self, alloc: Global, hash: hash::Kind) -> Result<ObjectId, encode::Error>
        requires { can_write self.now }
        ensures found { IfOk result (λ id. id
            ≡ id_of hash (object_kind self.now) (encoding self.now)) }
        ensures no_error { OnOk result (RejectsNothing (rejects self.now)) }
        ensures error { IfErr result (IsEncodingError (rejects self.now) (encoding self.now)) }
    {
        let mut content = Vec::new(alloc);
        self.write_to_vec(alloc, &mut content)?;
        Ok(compute_hash(hash, self.kind(), &content))
    }

    /// Returns the loose header of the object, or `None` if [`WriteTo::size`] is `None`.
    ///
    /// Allocates nothing: the list only keeps `alloc`.
    final fn loose_header(&self, alloc: Global) -> Option<SmallVec<u8, 28>>
        requires { can_write self.now }
        ensures found { IsSome result ↔ (length (encoding self.now) < 2 ^ 64) }
        ensures inline { IfSome result (λ it. it.capacity ≡ 28) }
        ensures header { IfSome result (λ it. it.items
            ≡ encode_loose_header (object_kind self.now) (length (encoding self.now))) }
    {
        Some(loose_header(alloc, self.kind(), self.size()?))
    }
}

/// A reference writes its referent.
impl<T: WriteTo> WriteTo for &T {
    ghost can_write = { λ it. T.can_write it.now };

    ghost object_kind = { λ it. T.object_kind it.now };

    ghost encoding = { λ it. T.encoding it.now };

    ghost rejects = { λ it. T.rejects it.now };

    fn write_into<S: Sink>(&self, alloc: Global, sink: &mut S) -> Result<(), encode::Error> {
        <T as WriteTo>::write_into(self, alloc, sink)
    }

    fn kind(&self) -> Kind {
        <T as WriteTo>::kind(self)
    }

    fn size(&self) -> Option<u64> {
        <T as WriteTo>::size(self)
    }
}

/// Reserves the size of the encoding in a list without capacity. If this fails, the list grows as it is
/// written to.
fn make_room<T: WriteTo>(object: &T, list: &mut Vec<u8>)
    requires { T.can_write object.now }
    ensures items { list.new.items ≡ list.old.items }
    ensures capacity { vec_capacity list.old ≤ vec_capacity list.new }
{
    if list.capacity() > 0 {
        return;
    }
    if let Some(size) = object.size() {
        let _ = list.reserve(size as usize);
    }
}
