//! Encoding of commits (gitdatamodel, "commits").
ghost use Rattle.std.specs.Prelude.{◌≡◌, ◌<◌, ◌+◌, ◌^◌, ◌++◌, ◌∷◌, All, codes, length, IfErr, OnOk};
ghost use Rattle.std.specs.List.{flat_map};
ghost use Rattle.std.specs.Option.{SomeIff};
ghost use Rattle.bstr.specs.BStr.{bstr_bytes};
ghost use Rattle.gixobj_hash.specs.Hash.{IsIdHex, encode_id_hex};
ghost use Rattle.gixobj_hash.specs.FieldFormat.{encode_field};
ghost use Rattle.gixobj_streams.specs.Streams.{AppendsAll, AppendsOrFails};
ghost use Rattle.gixobj_streams.specs.Writing.{AddsSize, IsSize, IsWritingError, LacksRoom, RejectsNothing};
ghost use Rattle.gixobj_grammar.specs.Commit.{encode_encoding};
ghost use Rattle.gixobj_hash.specs.Optional.{bytes_if_some};
ghost use Rattle.gixobj_commit.specs.CommitWriting.{IsEncodingLineError, hex_lines, hex_tree};
ghost use Rattle.gixobj_hash.specs.Bytes.{newline};

mod owned;

use super::CommitRef;
use bstr::{BStr, BString};
use gixobj_encode::WriteTo;
use gixobj_encode::encode::{
    Error, header_field, header_field_multi_line, size_plus_field, size_plus_id, size_with_hex,
    size_with_multi_line, trusted_header_field, trusted_header_hex, trusted_header_id,
};
use gixobj_hash::Kind;
use gixobj_hash::hash::ObjectId;
use gixobj_streams::streams::{Sink, write_parts};
use std::alloc::Global;
use std::borrow::CowSlice;
use std::io;

/// Encodes a commit with ids in lower case and unchanged actor lines. The hex fields must be ids.
///
/// Actor lines and the names of extra headers are written without validation. Only the sink and the copy of a
/// rejected message encoding allocate.
///
/// # Errors
///
/// - [`Error::Writer`] with the sink's error. A proper prefix of the encoding is then written.
/// - [`Error::EmptyValue`] if the message encoding is empty.
/// - [`Error::NewlineInHeaderValue`] with a copy of the message encoding, if it has a newline.
/// - [`Error::OutOfMemory`] if it has a newline, and the allocation of the copy fails.
///
/// At the last three, the lines before the message encoding are written.
impl WriteTo for CommitRef<'_> {
    ghost use Rattle.gixobj_hash.specs.declared.kind.Kind.TheVariants as kind;
    ghost use Rattle.gixobj_commit.specs.CommitViews.{commit_lines};
    ghost use Rattle.gixobj_commit.specs.CommitWriting.{HasIds, IsCommitLinesError, encode_commit, in_lower_case};

    ghost can_write = { λ commit. HasIds (commit_lines commit) };

    ghost object_kind = { λ _. kind.Commit };

    ghost encoding = { λ commit. encode_commit (in_lower_case (commit_lines commit)) };

    ghost rejects = { λ commit. IsCommitLinesError (in_lower_case (commit_lines commit)) };

    fn write_into<S: Sink>(&self, alloc: Global, sink: &mut S) -> Result<(), Error> {
        let parents = self.parents.as_slice();
        let (author, committer) = (self.author.as_bytes(), self.committer.as_bytes());
        let (headers, message) = (self.extra_headers.as_slice(), self.message.as_bytes());
        write_hex_ids(self.tree, parents, sink)?;
        trusted_header_field(b"author", author, sink)?;
        trusted_header_field(b"committer", committer, sink)?;
        write_rest(alloc, self.encoding, headers, message, sink)
    }

    fn kind(&self) -> Kind {
        Kind::Commit
    }

    fn size(&self) -> Option<u64> {
        let parents = self.parents.as_slice();
        let (author, committer) = (self.author.as_bytes(), self.committer.as_bytes());
        let (headers, message) = (self.extra_headers.as_slice(), self.message.as_bytes());
        let ids = hex_ids_size(self.tree, parents)?;
        let with_author = size_plus_field(ids, b"author", author)?;
        let lines = size_plus_field(with_author, b"committer", committer)?;
        let all = size_with_rest(lines, self.encoding, headers, message)?;
        Some(all)
    }
}

/// Writes the lines of the tree and of the parents.
fn write_ids<T: Field, S: Sink>(tree: &ObjectId, parents: &[T], sink: &mut S) -> io::Result<()>
    requires { All T.can_encode parents.now }
    ensures appended { AppendsOrFails result (S.view sink.old) (S.view sink.new)
        (encode_field (codes "tree") (encode_id_hex tree.now) ++ flat_map T.written parents.now) }
    ensures same_loan { S.loan sink.new ≡ S.loan sink.old }
{
    trusted_header_id(b"tree", tree, sink)?;
    write_each(parents, sink)
}

/// Writes the lines of the tree and of the parents, from hex.
fn write_hex_ids<S: Sink>(tree: BStr<'_>, parents: &[BStr<'_>], sink: &mut S) -> io::Result<()>
    requires tree { IsIdHex (bstr_bytes tree) }
    requires parents { All (λ hex. IsIdHex (bstr_bytes hex)) parents.now }
    ensures appended { AppendsOrFails result (S.view sink.old) (S.view sink.new)
        (hex_lines tree.entry parents.now) }
    ensures same_loan { S.loan sink.new ≡ S.loan sink.old }
{
    write_hex_tree(tree, sink)?;
    write_each(parents, sink)
}

/// Writes the line of the tree, from hex.
#[tactic(auto, using(crate::proofs::HexFields::encode_decoded_id_lower_case, crate::proofs::HexFields::id_hex_len_le))]
fn write_hex_tree<S: Sink>(tree: BStr<'_>, sink: &mut S) -> io::Result<()>
    requires { IsIdHex (bstr_bytes tree) }
    ensures appended { AppendsOrFails result (S.view sink.old) (S.view sink.new)
        (hex_tree tree.entry) }
    ensures same_loan { S.loan sink.new ≡ S.loan sink.old }
{
    trusted_header_hex(b"tree", tree.as_bytes(), sink)
}

/// Returns the size of what [`write_hex_ids`] writes, or `None` above 64 bits. Decodes no id.
fn hex_ids_size(tree: BStr<'_>, parents: &[BStr<'_>]) -> Option<u64>
    requires { IsIdHex (bstr_bytes tree) }
    ensures { IsSize result (hex_lines tree.entry parents.now) }
{
    size_with_all(hex_tree_size(tree)?, parents)
}

/// Returns the size of the tree's line, from hex.
#[tactic(auto, using(crate::proofs::HexFields::encode_decoded_id_lower_case))]
fn hex_tree_size(tree: BStr<'_>) -> Option<u64>
    requires { IsIdHex (bstr_bytes tree) }
    ensures { AddsSize result 0 (hex_tree tree.entry) }
{
    size_with_hex(0, b"tree", tree.as_bytes())
}

/// Returns the size of the lines of the tree and of the parents, or `None` above 64 bits.
fn ids_size<T: Field>(tree: &ObjectId, parents: &[T]) -> Option<u64>
    ensures { IsSize result (encode_field (codes "tree") (encode_id_hex tree.now)
        ++ flat_map T.written
        parents.now) }
{
    size_with_all(size_plus_id(0, b"tree", tree)?, parents)
}

/// A field that a commit may have more than once: a parent or an extra header.
trait Field {
    ghost use Rattle.std.specs.Prelude.{ℕ, List, ⊤};

    /// The precondition of encoding the field.
    ghost can_encode: { Self → Type 0 } = { λ _. ⊤ };

    /// The encoding of the field.
    ghost written: { Self → List ℕ };

    /// Writes the field.
    fn write_bytes<S: Sink>(&self, sink: &mut S) -> io::Result<()>
        requires { can_encode self.now }
        ensures appended { AppendsOrFails result (S.view sink.old) (S.view sink.new)
            (written self.now) }
        ensures same_loan { S.loan sink.new ≡ S.loan sink.old };

    /// Adds the size of the field to `size`, or returns `None` above 64 bits.
    fn size_with(&self, size: u64) -> Option<u64>
        ensures { AddsSize result size (written self.now) };
}

/// A parent, by the hex digits of its id.
impl Field for BStr<'_> {
    ghost use Rattle.bstr.specs.BStr.{bstr_bytes};
    ghost use Rattle.gixobj_hash.specs.Hash.{IsIdHex};
    ghost use Rattle.gixobj_commit.specs.CommitWriting.{hex_parent};

    ghost can_encode = { λ hex. IsIdHex (bstr_bytes hex) };

    ghost written = { λ hex. hex_parent hex };

    #[tactic(auto, using(crate::proofs::HexFields::id_hex_len_le))]
    fn write_bytes<S: Sink>(&self, sink: &mut S) -> io::Result<()> {
        trusted_header_hex(b"parent", self.as_bytes(), sink)
    }

    fn size_with(&self, size: u64) -> Option<u64> {
        size_plus_field(size, b"parent", self.as_bytes())
    }
}

/// A parent, by its id.
impl Field for ObjectId {
    ghost use Rattle.gixobj_hash.specs.Hash.{encode_id_hex};
    ghost use Rattle.gixobj_grammar.specs.Commit.{encode_parent};

    ghost written = { λ id. encode_parent (encode_id_hex id) };

    fn write_bytes<S: Sink>(&self, sink: &mut S) -> io::Result<()> {
        trusted_header_id(b"parent", self, sink)
    }

    fn size_with(&self, size: u64) -> Option<u64> {
        size_plus_id(size, b"parent", self)
    }
}

/// An extra header, borrowed.
impl Field for (BStr<'_>, CowSlice<'_, u8>) {
    ghost use Rattle.gixobj_parse.specs.HeaderReading.{header_of};
    ghost use Rattle.gixobj_encode.specs.FieldWriting.{encode_header};

    ghost written = { λ header. encode_header (header_of header) };

    fn write_bytes<S: Sink>(&self, sink: &mut S) -> io::Result<()> {
        header_field_multi_line(self.0.as_bytes(), self.1.as_slice(), sink)
    }

    fn size_with(&self, size: u64) -> Option<u64> {
        size_with_multi_line(size, self.0.as_bytes(), self.1.as_slice())
    }
}

/// An extra header, owned.
impl Field for (BString, BString) {
    ghost use Rattle.gixobj_parse.specs.HeaderReading.{owned_header_of};
    ghost use Rattle.gixobj_encode.specs.FieldWriting.{encode_header};

    ghost written = { λ header. encode_header (owned_header_of header) };

    fn write_bytes<S: Sink>(&self, sink: &mut S) -> io::Result<()> {
        header_field_multi_line(self.0.as_bytes(), self.1.as_bytes(), sink)
    }

    fn size_with(&self, size: u64) -> Option<u64> {
        size_with_multi_line(size, self.0.as_bytes(), self.1.as_bytes())
    }
}

/// Writes fields, one after the other.
fn write_each<T: Field, S: Sink>(fields: &[T], sink: &mut S) -> io::Result<()>
    requires { All T.can_encode fields.now }
    ensures appended { AppendsOrFails result (S.view sink.old) (S.view sink.new)
        (flat_map T.written fields.now) }
    ensures same_loan { S.loan sink.new ≡ S.loan sink.old }
{
    for field in fields {
        field.write_bytes(sink)?;
    }
    Ok(())
}

/// Adds the size of the fields, or returns `None` above 64 bits.
fn size_with_all<T: Field>(size: u64, fields: &[T]) -> Option<u64>
    ensures { AddsSize result size (flat_map T.written fields.now) }
{
    let mut size = size;
    for field in fields {
        size = field.size_with(size)?;
    }
    Some(size)
}

/// Writes the lines after the committer: the encoding, the extra headers, an empty line and the message.
fn write_rest<T: Field, S: Sink>(
    alloc: Global,
    encoding: Option<BStr<'_>>,
    headers: &[T],
    message: &[u8],
    sink: &mut S,
) -> Result<(), Error>
    requires { All T.can_encode headers.now }
    ensures written { OnOk result (AppendsAll (S.view sink.old) (S.view sink.new)
        (encode_encoding (bytes_if_some encoding.entry) ++ flat_map T.written
        headers.now ++ newline ∷ message.now)) }
    ensures no_error { OnOk result
        (RejectsNothing (IsEncodingLineError (bytes_if_some encoding.entry))) }
    ensures error { IfErr result (IsWritingError
        (IsEncodingLineError (bytes_if_some encoding.entry)) (S.view sink.old) (S.view sink.new)
        (encode_encoding (bytes_if_some encoding.entry) ++ flat_map T.written
        headers.now ++ newline ∷ message.now)) }
    ensures room { IfErr result (LacksRoom (IsEncodingLineError (bytes_if_some encoding.entry))
        (S.view sink.old)) }
    ensures same_loan { S.loan sink.new ≡ S.loan sink.old }
{
    write_encoding(alloc, encoding, sink)?;
    write_each(headers, sink)?;
    write_parts(&[b"\n", message], sink)?;
    Ok(())
}

/// Writes the line of the message encoding if there is one.
fn write_encoding<S: Sink>(
    alloc: Global,
    encoding: Option<BStr<'_>>,
    sink: &mut S,
) -> Result<(), Error>
    ensures written { OnOk result (AppendsAll (S.view sink.old) (S.view sink.new)
        (encode_encoding (bytes_if_some encoding.entry))) }
    ensures no_error { OnOk result
        (RejectsNothing (IsEncodingLineError (bytes_if_some encoding.entry))) }
    ensures error { IfErr result (IsWritingError
        (IsEncodingLineError (bytes_if_some encoding.entry)) (S.view sink.old) (S.view sink.new)
        (encode_encoding (bytes_if_some encoding.entry))) }
    ensures room { IfErr result (LacksRoom (IsEncodingLineError (bytes_if_some encoding.entry))
        (S.view sink.old)) }
    ensures same_loan { S.loan sink.new ≡ S.loan sink.old }
{
    match encoding {
        Some(encoding) => header_field(alloc, b"encoding", encoding.as_bytes(), sink),
        None => Ok(()),
    }
}

/// Adds the size of the lines after the committer, or returns `None` above 64 bits.
fn size_with_rest<T: Field>(
    size: u64,
    encoding: Option<BStr<'_>>,
    headers: &[T],
    message: &[u8],
) -> Option<u64>
    ensures { AddsSize result size (encode_encoding (bytes_if_some encoding.entry) ++ flat_map
        T.written headers.now ++ newline ∷ message.now) }
{
    let with_encoding = size_with_encoding(size, encoding)?;
    let with_headers = size_with_all(with_encoding, headers)?;
    with_headers
        .checked_add(message.len() as u64)?
        .checked_add(1)
}

/// Adds the size of the line of the message encoding, or returns `None` above 64 bits.
fn size_with_encoding(size: u64, encoding: Option<BStr<'_>>) -> Option<u64>
    ensures { AddsSize result size (encode_encoding (bytes_if_some encoding.entry)) }
{
    match encoding {
        Some(encoding) => size_plus_field(size, b"encoding", encoding.as_bytes()),
        None => Some(size),
    }
}
