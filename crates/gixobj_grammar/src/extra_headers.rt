//! The extra headers of a commit, one by one (gitdatamodel, "commits").
ghost use Rattle.std.specs.Prelude.{◌≡◌, map};
ghost use Rattle.gixobj_parse.specs.HeaderReading.{header_of, owned_header_of};
ghost use Rattle.gixobj_grammar.specs.RemainingHeaders.{remaining_headers, remaining_owned_headers};

use bstr::{BStr, BString};
use std::borrow::CowSlice;

/// An iterator over the extra headers of a borrowed commit, in order, as pairs of name and value.
#[derive(Clone, Copy)]
pub struct BorrowedHeaders<'a, 'b> {
    rest: &'a [(BStr<'b>, CowSlice<'b, u8>)],
}

impl<'a, 'b> BorrowedHeaders<'a, 'b> {
    /// Returns an iterator over these headers, in order. Allocates nothing.
    pub fn new(headers: &'a [(BStr<'b>, CowSlice<'b, u8>)]) -> BorrowedHeaders<'a, 'b>
        ensures { remaining_headers result ≡ map header_of headers.now }
    {
        BorrowedHeaders { rest: headers }
    }
}

/// Yields the next header. Allocates nothing.
impl<'a, 'b> Iterator for BorrowedHeaders<'a, 'b> {
    ghost use Rattle.std.specs.Iterator.{YieldsFirstBy, item_count};
    ghost use Rattle.gixobj_grammar.specs.RemainingHeaders.{pair_of, remaining_headers};

    type Item = (BStr<'a>, BStr<'a>);

    ghost next_gives = { YieldsFirstBy pair_of remaining_headers };

    ghost remaining = { item_count remaining_headers };

    fn next(&mut self) -> Option<(BStr<'a>, BStr<'a>)> {
        let [(name, value), rest @ ..] = self.rest else {
            return None;
        };
        self.rest = rest;
        Some((BStr::new(name.as_bytes()), BStr::new(value.as_slice())))
    }
}

/// An iterator over the extra headers of an owned commit, in order, as pairs of name and value.
#[derive(Clone, Copy)]
pub struct OwnedHeaders<'a> {
    rest: &'a [(BString, BString)],
}

impl<'a> OwnedHeaders<'a> {
    /// Returns an iterator over these headers, in order. Allocates nothing.
    pub fn new(headers: &'a [(BString, BString)]) -> OwnedHeaders<'a>
        ensures { remaining_owned_headers result ≡ map owned_header_of headers.now }
    {
        OwnedHeaders { rest: headers }
    }
}

/// Yields the next header. Allocates nothing.
impl<'a> Iterator for OwnedHeaders<'a> {
    ghost use Rattle.std.specs.Iterator.{YieldsFirstBy, item_count};
    ghost use Rattle.gixobj_grammar.specs.RemainingHeaders.{pair_of, remaining_owned_headers};

    type Item = (BStr<'a>, BStr<'a>);

    ghost next_gives = { YieldsFirstBy pair_of remaining_owned_headers };

    ghost remaining = { item_count remaining_owned_headers };

    fn next(&mut self) -> Option<(BStr<'a>, BStr<'a>)> {
        let ((name, value), rest) = self.rest.split_first()?;
        self.rest = rest;
        Some((name.as_bstr(), value.as_bstr()))
    }
}
