//! Pairs of entries of two trees, in the order of their keys.
ghost use Rattle.std.specs.Prelude.{◌≡◌, [], IfNone, IfSome, None, Some};
ghost use Rattle.std.specs.Cmp.Lexicographic.{slice_cmp};
ghost use Rattle.std.specs.Ordering.{nat_cmp};
ghost use Rattle.gix_object.specs.KeyOrder.{entry_key};
ghost use Rattle.gix_object.specs.WellFormed.{IsEntryName};
ghost use Rattle.gixobj_listings.specs.Changes.{HaveNames};
ghost use Rattle.gixobj_listings.specs.Differences.{IsNextPair, IsPairOf};

use bstr::BString;
use gix_object::tree::{Entry, name_order};
use std::cmp::Ordering;

/// The first entries of two lists with equal keys, or the one of them that comes first, and the entries after.
#[derive(Clone, Copy)]
pub(super) struct EntryPair<'a> {
    /// The name of the entries.
    pub(super) name: &'a BString,
    /// The entry of the first list, if it has one.
    pub(super) before: Option<&'a Entry>,
    /// The entry of the second list, if it has one.
    pub(super) after: Option<&'a Entry>,
    /// The entries of the first list after it.
    pub(super) left: &'a [Entry],
    /// The entries of the second list after it.
    pub(super) right: &'a [Entry],
}

/// Returns the first pair of two lists of entries, or `None` if both are empty.
pub(super) fn next_pair<'a>(left: &'a [Entry], right: &'a [Entry]) -> Option<EntryPair<'a>>
    requires left_names { HaveNames left.now }
    requires right_names { HaveNames right.now }
    ensures none { IfNone result ((left.now ≡ []) × (right.now ≡ [])) }
    ensures next { IfSome result (IsNextPair left.now right.now) }
{
    match (left.split_first(), right.split_first()) {
        (None, None) => None,
        (Some((before, more)), None) => Some(before_alone(before, more, right)),
        (None, Some((after, more))) => Some(after_alone(after, left, more)),
        (Some((before, left_more)), Some((after, right_more))) => {
            match order_of(before, after) {
                Ordering::Less => Some(before_alone(before, left_more, right)),
                Ordering::Greater => Some(after_alone(after, left, right_more)),
                Ordering::Equal => Some(EntryPair {
                    name: &before.filename,
                    before: Some(before),
                    after: Some(after),
                    left: left_more,
                    right: right_more,
                }),
            }
        }
    }
}

/// Compares the keys of two entries.
fn order_of(before: &Entry, after: &Entry) -> Ordering
    requires { IsEntryName before.now.name × IsEntryName after.now.name }
    ensures { result ≡ slice_cmp nat_cmp (entry_key before.now) (entry_key after.now) }
{
    name_order(
        before.filename.as_bytes(),
        before.mode.is_tree(),
        after.filename.as_bytes(),
        after.mode.is_tree(),
    )
}

/// The pair of an entry of the first list alone.
fn before_alone<'a>(entry: &'a Entry, left: &'a [Entry], right: &'a [Entry]) -> EntryPair<'a>
    ensures { IsPairOf (Some entry.now) None left.now right.now result }
{
    EntryPair {
        name: &entry.filename,
        before: Some(entry),
        after: None,
        left,
        right,
    }
}

/// The pair of an entry of the second list alone.
fn after_alone<'a>(entry: &'a Entry, left: &'a [Entry], right: &'a [Entry]) -> EntryPair<'a>
    ensures { IsPairOf None (Some entry.now) left.now right.now result }
{
    EntryPair {
        name: &entry.filename,
        before: None,
        after: Some(entry),
        left,
        right,
    }
}
