//! The command `tree`, which lists the entries of a loose tree over any reader and any two writers.
ghost use Rattle.std.specs.Prelude.{◌≡◌, ◌≢◌, [], ◌++◌, codes, map, IfOk, IfErr, OnErr, OnOk, ⊤};
ghost use Rattle.std.specs.String.{string_bytes};
ghost use Rattle.gixobj_streams.specs.Streams.{writer_view};
ghost use Rattle.gixobj_hash.specs.Decode.{HasContent};
ghost use Rattle.gixobj_hash.specs.declared.kind.Kind.TheVariants.{Tree};
ghost use Rattle.gixobj_cli_tree.specs.Listing.{IsListed, IsUnlisted, Listed, IsListError, IsListingError};
ghost use Rattle.gixobj_cli_tree.specs.Listing.{IsListedTreeError, entry_line, listing_of};
ghost use Rattle.gixobj_cli_show.specs.Engine.{HasWrittenNothing};
ghost use Rattle.gixobj_cli_show.specs.Arguments.{IsCommandOfHash};
ghost use Rattle.gixobj_tree_entries.specs.EntryViews.{entry_view};
ghost use Rattle.gixobj_tree.specs.TreeViews.{tree_entries};

use gixobj_cli_show::Failure;
use gixobj_cli_show::engine::report_to;
use gixobj_cli_show::input::read_all;
use gixobj_hash::decode::{Error, loose_content};
use gixobj_hash::{Kind, hash};
use gixobj_streams::streams::{FromRead, Sink, Source, ToWrite};
use gixobj_tree::TreeRef;
use gixobj_tree::tree::EntryRef;
use std::alloc::{AllocError, Global};
use std::io::{Read, Write};

/// Lists a tree like [`list`], over any reader and any two writers. `arguments` have to request `tree` with
/// `hash`.
pub(crate) fn list_read<R: Read, O: Write, E: Write>(
    alloc: Global,
    arguments: &[String],
    hash: hash::Kind,
    input: &mut R,
    output: &mut O,
    errors: &mut E,
) -> u8
    requires command { IsCommandOfHash (map string_bytes arguments.now) (codes "tree") hash }
    ensures written { result ≡ 0 → Listed (map string_bytes arguments.now) (R.remaining input.old)
        (R.remaining input.new) (writer_view (O.contents output.old))
        (writer_view (O.contents output.new)) }
    ensures error { result ≢ 0 → IsUnlisted (map string_bytes arguments.now)
        (R.remaining input.old) (R.remaining input.new) ⊤ (writer_view (O.contents output.old))
        (writer_view (O.contents output.new)) (writer_view (E.contents errors.old))
        (writer_view (E.contents errors.new)) (output.new ≡ output.old) result }
    ensures no_error { result ≡ 0 → errors.new ≡ errors.old }
{
    list(
        alloc,
        arguments,
        hash,
        &mut FromRead(input),
        &mut ToWrite(output),
        &mut ToWrite(errors),
    )
}

/// Lists the tree of the input or reports the error, and returns the status. `arguments` have to request `tree`
/// with `hash`.
pub(crate) fn list<S: Source, O: Sink, E: Sink>(
    alloc: Global,
    arguments: &[String],
    hash: hash::Kind,
    input: &mut S,
    output: &mut O,
    errors: &mut E,
) -> u8
    requires command { IsCommandOfHash (map string_bytes arguments.now) (codes "tree") hash }
    ensures written { result ≡ 0 → Listed (map string_bytes arguments.now) (S.rest input.old)
        (S.rest input.new) (O.view output.old) (O.view output.new) }
    ensures error { result ≢ 0 → IsUnlisted (map string_bytes arguments.now) (S.rest input.old)
        (S.rest input.new) (S.may_fail input.old) (O.view output.old) (O.view output.new)
        (E.view errors.old) (E.view errors.new) (output.new ≡ output.old) result }
    ensures no_error { result ≡ 0 → errors.new ≡ errors.old }
    ensures same_loans { (S.loan input.new ≡ S.loan input.old)
        × (O.loan output.new ≡ O.loan output.old) × (E.loan errors.new ≡ E.loan errors.old) }
{
    match listed(alloc, arguments, hash, input, output) {
        Ok(()) => 0,
        Err(failure) => report_to(failure, errors),
    }
}

/// Reads the input, and writes the list of its tree. `arguments` have to request `tree` with `hash`.
fn listed<S: Source, O: Sink>(
    alloc: Global,
    arguments: &[String],
    hash: hash::Kind,
    input: &mut S,
    output: &mut O,
) -> Result<(), Failure>
    requires command { IsCommandOfHash (map string_bytes arguments.now) (codes "tree") hash }
    ensures written { OnOk result (Listed (map string_bytes arguments.now) (S.rest input.old)
        (S.rest input.new) (O.view output.old) (O.view output.new)) }
    ensures error { IfErr result (IsListError (map string_bytes arguments.now) (S.rest input.old)
        (S.rest input.new) (S.may_fail input.old) (O.view output.old) (O.view output.new)) }
    ensures nothing_written { IfErr result (HasWrittenNothing (output.new ≡ output.old)) }
    ensures same_loans { (S.loan input.new ≡ S.loan input.old)
        × (O.loan output.new ≡ O.loan output.old) }
{
    let bytes = read_all(alloc, input)?;
    let listed_lines = listing(alloc, hash, bytes.as_slice())?;
    match output.write_bytes(listed_lines.as_slice()) {
        Ok(()) => Ok(()),
        Err(_) => Err(Failure::OutputFailed),
    }
}

/// Lists the entries of the loose tree at the start of the input, with ids of `hash`.
///
/// Each entry is a line `<mode> <kind> <id> <name>`, with the name's bytes unchanged (git-ls-tree lists the
/// same entries). The kind is `tree`, `blob`, `exe`, `link` or `commit`. Bytes after the tree are ignored.
///
/// Allocates the entries and their lines, and a copy for the error of a malformed header.
///
/// # Errors
///
/// - [`Failure::BadHeader`] if the input begins with no loose header.
/// - [`Failure::ShortData`] if fewer bytes follow than the size in the header.
/// - [`Failure::NotATree`] if the object is of another kind.
/// - [`Failure::BadTree`] if the content is not the encoding of a tree with ids of `hash`.
/// - [`Failure::OutOfMemory`] if an allocation fails: for the error of a header, or for content that begins
///   with an entry.
pub fn listing(alloc: Global, hash: hash::Kind, input: &[u8]) -> Result<Vec<u8>, Failure>
    ensures found { IfOk result (λ listed_lines. IsListed hash input.now listed_lines.items) }
    ensures error { IfErr result (IsListingError hash input.now) }
{
    let content = tree_content(alloc, input)?;
    match TreeRef::from_bytes(alloc, content, hash) {
        Ok(tree) => match lines(alloc, &tree) {
            Ok(listed_lines) => Ok(listed_lines),
            Err(_) => Err(Failure::OutOfMemory),
        },
        Err(Error::Malformed) => Err(Failure::BadTree),
        Err(Error::OutOfMemory) => Err(Failure::OutOfMemory),
    }
}

/// Returns the content of the loose tree at the start of the input.
fn tree_content(alloc: Global, input: &[u8]) -> Result<&[u8], Failure>
    ensures found { IfOk result (λ content. HasContent input.now Tree content.now) }
    ensures error { IfErr result (IsListedTreeError input.now) }
{
    let (kind, content) = loose_content(alloc, input)?;
    match kind {
        Kind::Tree => Ok(content),
        _ => Err(Failure::NotATree),
    }
}

/// Returns the lines of a tree's entries. An empty tree allocates nothing.
fn lines(alloc: Global, tree: &TreeRef<'_>) -> Result<Vec<u8>, AllocError>
    ensures encoded { IfOk result (λ listed_lines. listed_lines.items
        ≡ listing_of (tree_entries tree.now)) }
    ensures allocates { OnErr result (tree_entries tree.now ≢ []) }
{
    let mut listed_lines = Vec::new(alloc);
    for entry in &tree.entries {
        push_line(&mut listed_lines, entry)?;
    }
    Ok(listed_lines)
}

/// Appends the line of an entry.
fn push_line(listed_lines: &mut Vec<u8>, entry: &EntryRef<'_>) -> Result<(), AllocError>
    ensures { OnOk result (listed_lines.new.items ≡ listed_lines.old.items
        ++ entry_line (entry_view entry.now)) }
{
    let mut mode = [0u8; 6];
    let mut hex = [0u8; 64];
    listed_lines.extend_from_slice(entry.mode.as_bytes(&mut mode).as_bytes())?;
    listed_lines.push(b' ')?;
    listed_lines.extend_from_slice(entry.mode.as_str().as_bytes())?;
    listed_lines.push(b' ')?;
    listed_lines.extend_from_slice(entry.oid.to_owned().hex_to_buf(&mut hex).as_bytes())?;
    listed_lines.push(b' ')?;
    listed_lines.extend_from_slice(entry.filename.as_bytes())?;
    listed_lines.push(b'\n')?;
    Ok(())
}
