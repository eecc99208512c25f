//! An auditor of releases, who searches headers of commits.
ghost use Rattle.std.specs.Prelude.{◌≡◌, IfOk, codes, map};
ghost use Rattle.std.specs.List.{AllZip};
ghost use Rattle.bstr.specs.BStr.{bstr_bytes};
ghost use Rattle.gix_object.specs.CommitViews.{commit_lines, owned_commit_lines};
ghost use Rattle.gix_object.specs.ExtraHeaders.{IsFirstPosition, IsFirstValue, values_named};
ghost use Rattle.gix_object.specs.Hash.{IsIdHex};
ghost use Rattle.gix_object.specs.Hash.Hex.{IsIdHexOfKind};
ghost use Rattle.gix_object.specs.Mergetags.{IsTagOf};
ghost use Rattle.gix_object.specs.hash.hash.kind.Kind.{Kind};

use bstr::BStr;
use gix_object::decode::Error;
use gix_object::laws::{
    borrowed_header_search_complete, borrowed_mergetag_search_complete,
    owned_header_search_complete,
};
use gix_object::{Commit, CommitRef, OutOfMemory, TagRef};
use std::alloc::Global;

/// Returns the value of the first header of this name, or `None` if there is none. Allocates nothing.
///
/// The commit's tree must be an id in hex, as in each decoded commit.
pub fn value_of<'a>(commit: &'a CommitRef<'_>, name: &str) -> Option<BStr<'a>>
    requires { IsIdHex (commit_lines commit.now).tree }
    ensures { IsFirstValue name.now (commit_lines commit.now).extra_headers result }
{
    borrowed_header_search_complete();
    commit.extra_headers().find(name)
}

/// Returns the position of the first header of this name in an owned commit, or `None` if there is none.
/// Allocates nothing.
pub fn position_of(commit: &Commit, name: &str) -> Option<usize>
    ensures { IsFirstPosition name.now (owned_commit_lines commit.now).extra_headers result }
{
    owned_header_search_complete();
    commit.extra_headers().find_pos(name)
}

/// Returns the values of all headers of this name, in order. Allocates the list.
///
/// The commit's tree must be an id in hex, as in each decoded commit.
///
/// # Errors
///
/// [`OutOfMemory`] if allocation fails.
pub fn values_of<'a>(
    alloc: Global,
    commit: &'a CommitRef<'_>,
    name: &'a str,
) -> Result<Vec<BStr<'a>>, OutOfMemory>
    requires { IsIdHex (commit_lines commit.now).tree }
    ensures { IfOk result (λ it. map bstr_bytes it.items
        ≡ values_named name.now (commit_lines commit.now).extra_headers) }
{
    borrowed_header_search_complete();
    let values = commit.extra_headers().find_all(name).collect(alloc)?;
    Ok(values)
}

/// Decodes the value of each `mergetag` header, in order: a merged tag, or [`Error::Malformed`]. Allocates
/// the list.
///
/// The ids of the tags' targets are of the kind of the commit's tree, which must be an id in hex.
///
/// # Errors
///
/// [`OutOfMemory`] if allocation of the list fails.
pub fn merged_tags_of<'a>(
    alloc: Global,
    commit: &'a CommitRef<'_>,
) -> Result<Vec<Result<TagRef<'a>, Error>>, OutOfMemory>
    requires { IsIdHex (commit_lines commit.now).tree }
    ensures { IfOk result (λ it. (kind : Kind) × IsIdHexOfKind kind (commit_lines commit.now).tree
        × AllZip (IsTagOf kind) (values_named (codes "mergetag")
        (commit_lines commit.now).extra_headers) it.items) }
{
    borrowed_mergetag_search_complete();
    let tags = commit.extra_headers().mergetags().collect(alloc)?;
    Ok(tags)
}
