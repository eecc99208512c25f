//! Owned copies of borrowed commits.
ghost use Rattle.std.specs.Prelude.{◌≡◌, ℕ, All, IfOk, List, map};
ghost use Rattle.bstr.specs.BStr.{bstr_bytes};
ghost use Rattle.gixobj_actor.specs.Actor.{IsActorOf, IsOwnedActor, actor_view};
ghost use Rattle.std.specs.List.{AllZip};
ghost use Rattle.gixobj_hash.specs.Hash.{IsIdHex, DecodesToId};
ghost use Rattle.gixobj_parse.specs.HeaderReading.{header_of, owned_header_of};
ghost use Rattle.gixobj_commit.specs.CommitOwned.{IsOwnedFormOfCommit};
ghost use Rattle.gixobj_commit.specs.CommitViews.{commit_lines};
ghost use Rattle.gixobj_hash.specs.Optional.{bytes_if_some, owned_bytes_if_some};
ghost use Rattle.gixobj_commit.specs.CommitWriting.{HasIds};

use super::{Commit, CommitRef};
use bstr::{BStr, BString};
use gixobj_actor::actor::SignatureRef;
use gixobj_actor::parse::owned_actor;
use gixobj_hash::OutOfMemory;
use gixobj_hash::hash::ObjectId;
use gixobj_hash::optional::copied;
use gixobj_hash::parse::id_of_hex;
use smallvec::SmallVec;
use std::alloc::Global;
use std::borrow::CowSlice;

/// Copies a commit, with the actors that its lines name.
pub(super) fn commit(
    alloc: Global,
    commit: &CommitRef<'_>,
    author: SignatureRef<'_>,
    committer: SignatureRef<'_>,
) -> Result<Commit, OutOfMemory>
    requires ids { HasIds (commit_lines commit.now) }
    requires author { IsActorOf (bstr_bytes commit.now.author) (actor_view author) }
    requires committer { IsActorOf (bstr_bytes commit.now.committer) (actor_view committer) }
    ensures { IfOk result (IsOwnedFormOfCommit (commit_lines commit.now)) }
{
    Ok(Commit {
        tree: commit.tree(),
        parents: ids(alloc, commit.parents.as_slice())?,
        author: owned_actor(alloc, author)?,
        committer: owned_actor(alloc, committer)?,
        encoding: copied(alloc, commit.encoding)?,
        message: BString::from_slice(alloc, commit.message.as_bytes())?,
        extra_headers: headers(alloc, &commit.extra_headers)?,
    })
}

/// Decodes ids from hex.
fn ids(alloc: Global, hexes: &[BStr<'_>]) -> Result<SmallVec<ObjectId, 1>, OutOfMemory>
    requires { All IsIdHex (map bstr_bytes hexes.now) }
    ensures { IfOk result (λ it. AllZip DecodesToId (map bstr_bytes hexes.now) it.items) }
{
    let mut ids = SmallVec::new(alloc);
    for hex in hexes {
        ids.push(id_of_hex(*hex))?;
    }
    Ok(ids)
}

/// Copies headers.
fn headers(
    alloc: Global,
    headers: &[(BStr<'_>, CowSlice<'_, u8>)],
) -> Result<Vec<(BString, BString)>, OutOfMemory>
    ensures { IfOk result (λ it. map owned_header_of it.items ≡ map header_of headers.now) }
{
    let mut copies = Vec::new(alloc);
    for one in headers {
        copies.push(header(alloc, one)?)?;
    }
    Ok(copies)
}

/// Copies a header.
fn header(
    alloc: Global,
    header: &(BStr<'_>, CowSlice<'_, u8>),
) -> Result<(BString, BString), OutOfMemory>
    ensures { IfOk result (λ it. owned_header_of it ≡ header_of header.now) }
{
    let name = BString::from_slice(alloc, header.0.as_bytes())?;
    let value = BString::from_slice(alloc, header.1.as_slice())?;
    Ok((name, value))
}
