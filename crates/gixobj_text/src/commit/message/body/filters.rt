//! Filters of trailers by their tokens.
ghost use Rattle.std.specs.Prelude.{◌≡◌};
ghost use Rattle.bstr.specs.BStr.{bstr_bytes};
ghost use Rattle.gixobj_text.specs.declared.commit.message.body.filters.Filter.TheVariants.{AssistedBy, Attributions};
ghost use Rattle.gixobj_text.specs.declared.commit.message.body.filters.Filter.TheVariants.{Authors, CoAuthoredBy};
ghost use Rattle.gixobj_text.specs.declared.commit.message.body.filters.Filter.TheVariants.{SignedOffBy};
ghost use Rattle.gixobj_text.specs.Filters.{NextFiltered, all_of, remaining_filtered_count, filter_of, passes_filter};

use crate::commit::message::body::trailers::{TrailerRef, Trailers};
use gixobj_hash::memory::OutOfMemory;

/// The tokens whose trailers a filter keeps.
#[derive(Clone, Copy, Debug, PartialEq, Eq)]
pub enum Filter {
    /// `Signed-off-by`.
    SignedOffBy,
    /// `Co-authored-by`.
    CoAuthoredBy,
    /// `Assisted-by`.
    AssistedBy,
    /// `Signed-off-by` and `Co-authored-by`.
    Authors,
    /// The six tokens of [`TrailerRef::is_attribution`].
    Attributions,
}

impl Filter {
    /// Returns whether the filter keeps a trailer.
    fn keeps(self, trailer: &TrailerRef<'_>) -> bool
        ensures { result ≡ passes_filter self (bstr_bytes trailer.now.token) }
    {
        match self {
            Filter::SignedOffBy => trailer.is_signed_off_by(),
            Filter::CoAuthoredBy => trailer.is_co_authored_by(),
            Filter::AssistedBy => trailer.is_assisted_by(),
            Filter::Authors => trailer.is_signed_off_by() || trailer.is_co_authored_by(),
            Filter::Attributions => trailer.is_attribution(),
        }
    }
}

/// An iterator over the trailers that a filter keeps, in order. The filters of [`Trailers`] make one.
#[derive(Clone, Copy)]
pub struct Filtered<'a> {
    trailers: Trailers<'a>,
    filter: Filter,
}

/// Filters by token, ASCII case ignored.
impl<'a> Trailers<'a> {
    /// Returns an iterator over the `Signed-off-by` trailers (git-commit, `--signoff`).
    ///
    /// Making the iterator allocates nothing. It allocates each value of several lines that it yields, and
    /// yields an error if that fails.
    pub fn signed_off_by(self) -> Filtered<'a>
        ensures trailers { all_of result ≡ self.entry }
        ensures filter { filter_of result ≡ SignedOffBy }
    {
        Filtered {
            trailers: self,
            filter: Filter::SignedOffBy,
        }
    }

    /// Returns an iterator over the `Co-authored-by` trailers.
    ///
    /// Making the iterator allocates nothing. It allocates each value of several lines that it yields, and
    /// yields an error if that fails.
    pub fn co_authored_by(self) -> Filtered<'a>
        ensures trailers { all_of result ≡ self.entry }
        ensures filter { filter_of result ≡ CoAuthoredBy }
    {
        Filtered {
            trailers: self,
            filter: Filter::CoAuthoredBy,
        }
    }

    /// Returns an iterator over the `Assisted-by` trailers.
    ///
    /// Making the iterator allocates nothing. It allocates each value of several lines that it yields, and
    /// yields an error if that fails.
    pub fn assisted_by(self) -> Filtered<'a>
        ensures trailers { all_of result ≡ self.entry }
        ensures filter { filter_of result ≡ AssistedBy }
    {
        Filtered {
            trailers: self,
            filter: Filter::AssistedBy,
        }
    }

    /// Returns an iterator over the trailers of the change's authors: `Signed-off-by` and `Co-authored-by`.
    ///
    /// Making the iterator allocates nothing. It allocates each value of several lines that it yields, and
    /// yields an error if that fails.
    pub fn authors(self) -> Filtered<'a>
        ensures trailers { all_of result ≡ self.entry }
        ensures filter { filter_of result ≡ Authors }
    {
        Filtered {
            trailers: self,
            filter: Filter::Authors,
        }
    }

    /// Returns an iterator over the trailers of everyone who had a part in the change. Authors:
    /// `Signed-off-by`, `Co-authored-by`. Others: `Assisted-by`, `Acked-by`, `Reviewed-by`, `Tested-by`.
    ///
    /// Making the iterator allocates nothing. It allocates each value of several lines that it yields, and
    /// yields an error if that fails.
    pub fn attributions(self) -> Filtered<'a>
        ensures trailers { all_of result ≡ self.entry }
        ensures filter { filter_of result ≡ Attributions }
    {
        Filtered {
            trailers: self,
            filter: Filter::Attributions,
        }
    }
}

/// Yields the trailers that the filter keeps. Allocates and fails as [`Trailers`] does, for each trailer.
impl<'a> Iterator for Filtered<'a> {
    type Item = Result<TrailerRef<'a>, OutOfMemory>;

    ghost next_gives = { NextFiltered };

    ghost remaining = { remaining_filtered_count };

    #[tactic(auto, using(crate::proofs::Filtering::skips_unfiltered_refl, crate::proofs::Filtering::skips_unfiltered_step))]
    fn next(&mut self) -> Option<Result<TrailerRef<'a>, OutOfMemory>> {
        'trailers: while let Some(item) = self.trailers.next() {
            match item {
                Ok(trailer) => {
                    if self.filter.keeps(&trailer) {
                        return Some(Ok(trailer));
                    }
                }
                Err(error) => return Some(Err(error)),
            }
        }
        None
    }
}
