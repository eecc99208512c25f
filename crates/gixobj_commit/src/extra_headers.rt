//! The extra headers of commits, searched by name: signatures (gitformat-signature, "Commit signatures") and
//! merged tags (git-merge, "MERGING TAG").
ghost use Rattle.std.specs.Prelude.{◌≡◌, ◌↔◌, ◌<◌, ◌^◌, IsTrue, codes};
ghost use Rattle.bstr.specs.BStr.{bstr_bytes};
ghost use Rattle.std.specs.Iterator.{IsFinite, MakesProgress, size};
ghost use Rattle.gixobj_commit.specs.ExtraHeaders.{FindsPosition, FindsValue, NextValue, hash_kind_of, iterator_of};
ghost use Rattle.gixobj_commit.specs.ExtraHeaders.{searched, searched_name};
ghost use Rattle.gixobj_grammar.specs.CommitSignatures.{signature_field};
ghost use Rattle.gixobj_commit.specs.Mergetags.{IsTagOf, mergetag_kind, mergetag_values};

use bstr::BStr;
pub use gixobj_grammar::extra_headers::{BorrowedHeaders, OwnedHeaders};
pub use gixobj_grammar::headers::{
    SIGNATURE_FIELD_NAME, SIGNATURE_FIELD_NAME_SHA256, signature_field_name,
};
use gixobj_hash::decode::Error;
use gixobj_hash::hash::Kind;
use gixobj_tag::TagRef;

/// The extra headers of a commit, searched by name. [`crate::CommitRef::extra_headers`] and
/// [`crate::Commit::extra_headers`] return them.
#[derive(Drop)]
pub struct ExtraHeaders<I> {
    inner: I,
    hash_kind: Kind,
}

/// Initialization
impl<'a, I: Iterator<Item = (BStr<'a>, BStr<'a>)> + Drop> ExtraHeaders<I> {
    /// Wraps an iterator over the headers, as pairs of name and value, of a commit with ids of this kind.
    /// Allocates nothing.
    pub fn new(iter: I, hash_kind: Kind) -> ExtraHeaders<I>
        ensures headers { iterator_of result ≡ iter }
        ensures hash_kind { hash_kind_of result ≡ hash_kind }
    {
        ExtraHeaders {
            inner: iter,
            hash_kind,
        }
    }
}

/// Access
impl<'a, I: Iterator<Item = (BStr<'a>, BStr<'a>)> + Drop> ExtraHeaders<I> {
    /// Finds the value of the first header of this name, or returns `None` without one. Allocates nothing.
    ///
    /// The wrapped iterator must be finite, as those of commits are.
    pub fn find(self, name: &str) -> Option<BStr<'a>>
        requires can_next { I.can_next (iterator_of self) }
        requires ends { IsFinite (I.remaining (iterator_of self)) }
        ensures { FindsValue I.next_gives name.now (iterator_of self) result }
    {
        let mut headers = self.inner;
        next_value(&mut headers, name)
    }

    /// Finds the position, from 0, of the first header of this name, or returns `None` without one.
    ///
    /// The wrapped iterator must be finite, with fewer than 2^64 headers, as those of commits are.
    /// Allocates nothing.
    #[tactic(auto, using(crate::proofs::HeaderSearches::no_header_named_in_nil, crate::proofs::HeaderSearches::no_header_named_snoc))]
    pub fn find_pos(self, name: &str) -> Option<usize>
        requires can_next { I.can_next (iterator_of self) }
        requires ends { IsFinite (I.remaining (iterator_of self)) }
        requires fits { size (I.remaining (iterator_of self)) < 2 ^ 64 }
        ensures { FindsPosition I.next_gives name.now (iterator_of self) result }
    {
        let mut index = 0;
        for (key, _) in self.inner {
            if is_named(key, name) {
                return Some(index);
            }
            index += 1;
        }
        None
    }

    /// Returns an iterator over the values of all headers of this name, in order. Allocates nothing.
    pub fn find_all(self, name: &'a str) -> FindAll<'a, I>
        ensures headers { searched result ≡ iterator_of self }
        ensures name { searched_name result ≡ name.now }
    {
        FindAll {
            inner: self.inner,
            name,
        }
    }

    /// Returns an iterator over the merged tags, in order (git-merge, "MERGING TAG").
    ///
    /// It yields, for each `mergetag` header, the tag that its value encodes, or an error. Making the
    /// iterator decodes nothing. Allocates nothing.
    pub fn mergetags(self) -> Mergetags<'a, I>
        ensures headers { searched (mergetag_values result) ≡ iterator_of self }
        ensures name { searched_name (mergetag_values result) ≡ codes "mergetag" }
        ensures hash_kind { mergetag_kind result ≡ hash_kind_of self }
    {
        let kind = self.hash_kind;
        Mergetags {
            values: self.find_all("mergetag"),
            hash_kind: kind,
        }
    }

    /// Finds the signature of the commit, in any format, or returns `None` without one. Allocates nothing.
    ///
    /// It is the value of the first header named [`signature_field_name`] of the kind of the commit's ids
    /// (gitformat-signature, "Commit signatures"). The wrapped iterator must be finite, as those of
    /// commits are.
    pub fn pgp_signature(self) -> Option<BStr<'a>>
        requires can_next { I.can_next (iterator_of self) }
        requires ends { IsFinite (I.remaining (iterator_of self)) }
        ensures { FindsValue I.next_gives (signature_field (hash_kind_of self)) (iterator_of self)
            result }
    {
        let name = signature_field_name(self.hash_kind);
        self.find(name)
    }
}

/// An iterator over the values of all headers of a name, in order. [`ExtraHeaders::find_all`] returns one.
#[derive(Drop)]
pub struct FindAll<'a, I> {
    inner: I,
    name: &'a str,
}

/// Yields the value of the next header of the name. Allocates nothing.
///
/// The wrapped iterator must be finite, as those of commits are.
impl<'a, I: Iterator<Item = (BStr<'a>, BStr<'a>)> + Drop> Iterator for FindAll<'a, I> {
    ghost use Rattle.std.specs.Prelude.{◌≡◌};
    ghost use Rattle.std.specs.Iterator.{IsFinite};
    ghost use Rattle.gixobj_commit.specs.ExtraHeaders.{NextOfAll, searched};

    type Item = BStr<'a>;

    ghost can_next = { λ s. I.can_next (searched s) × IsFinite (I.remaining (searched s)) };

    ghost next_gives = { NextOfAll I.next_gives };

    ghost remaining = { λ s. I.remaining (searched s) };

    fn next(&mut self) -> Option<BStr<'a>> {
        next_value(&mut self.inner, self.name)
    }
}

/// An iterator over the tags in a commit's headers, in order. [`ExtraHeaders::mergetags`] returns one.
#[derive(Drop)]
pub struct Mergetags<'a, I> {
    values: FindAll<'a, I>,
    hash_kind: Kind,
}

/// Yields the next tag. Allocates nothing.
///
/// The wrapped iterator must be finite, as those of commits are.
///
/// # Errors
///
/// [`Error::Malformed`] if the next value isn't the encoding of a tag. The iterator then continues with the
/// value after it.
impl<'a, I: Iterator<Item = (BStr<'a>, BStr<'a>)> + Drop> Iterator for Mergetags<'a, I> {
    ghost use Rattle.std.specs.Iterator.{IsFinite};
    ghost use Rattle.gixobj_commit.specs.ExtraHeaders.{searched};
    ghost use Rattle.gixobj_commit.specs.Mergetags.{NextMergetag, mergetag_values};

    type Item = Result<TagRef<'a>, Error>;

    ghost can_next = { λ s. I.can_next (searched (mergetag_values s))
        × IsFinite (I.remaining (searched (mergetag_values s))) };

    ghost next_gives = { NextMergetag I.next_gives };

    ghost remaining = { λ s. I.remaining (searched (mergetag_values s)) };

    fn next(&mut self) -> Option<Result<TagRef<'a>, Error>> {
        match self.values.next() {
            Some(value) => Some(read_tag(value, self.hash_kind)),
            None => None,
        }
    }
}

/// Decodes the tag that the value encodes. Fails with [`Error::Malformed`] if it encodes none.
fn read_tag(value: BStr<'_>, hash_kind: Kind) -> Result<TagRef<'_>, Error>
    ensures { IsTagOf hash_kind (bstr_bytes value.entry) result }
{
    match TagRef::from_bytes(value.as_bytes(), hash_kind) {
        Ok(tag) => Ok(tag),
        Err(error) => Err(error),
    }
}

/// Returns whether the key is this name.
fn is_named(key: BStr<'_>, name: &str) -> bool
    ensures { IsTrue result ↔ (bstr_bytes key.entry ≡ name.now) }
{
    key.as_bytes() == name.as_bytes()
}

/// Returns the value of the next header of this name, or `None` if no remaining header has it.
#[tactic(auto, using(crate::proofs::HeaderSearches::no_header_named_in_nil, crate::proofs::HeaderSearches::no_header_named_snoc))]
fn next_value<'a, I: Iterator<Item = (BStr<'a>, BStr<'a>)>>(
    headers: &mut I,
    name: &str,
) -> Option<BStr<'a>>
    requires can_next { I.can_next headers.old }
    requires ends { IsFinite (I.remaining headers.old) }
    ensures value { NextValue I.next_gives name.now headers.old result headers.new }
    ensures progress { MakesProgress I.can_next I.remaining headers.old result headers.new }
{
    'headers: while let Some((key, value)) = headers.next() {
        if is_named(key, name) {
            return Some(value);
        }
    }
    None
}
