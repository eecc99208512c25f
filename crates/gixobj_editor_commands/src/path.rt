//! Names of the paths in a script.
ghost use Rattle.std.specs.Prelude.{◌≢◌, IfOk, OnErr};
ghost use Rattle.gixobj_editor_commands.specs.Views.{path_names};
ghost use Rattle.gixobj_hash.specs.Splits.{IsSplitAtEach};
ghost use Rattle.gixobj_editor_commands.specs.ScriptPaths.{ArePathNames, root_path};

use bstr::BString;
use gixobj_hash::OutOfMemory;
use gixobj_hash::split::split_at_byte;
use std::alloc::Global;

/// Splits a path at each slash into its names, which may be empty. The path `.` has no names, and allocates
/// nothing; else the names are allocated.
///
/// # Errors
///
/// [`OutOfMemory`] if an allocation fails, never for the path `.`.
pub fn names_of_path(alloc: Global, path: &[u8]) -> Result<Vec<BString>, OutOfMemory>
    ensures names { IfOk result (λ names. ArePathNames path.now (path_names names.items)) }
    ensures error { OnErr result (path.now ≢ root_path) }
{
    match path {
        b"." => Ok(Vec::new(alloc)),
        _ => parts_at(alloc, path, b'/'),
    }
}

/// Splits bytes at each occurrence of a byte.
fn parts_at(alloc: Global, content: &[u8], byte: u8) -> Result<Vec<BString>, OutOfMemory>
    ensures { IfOk result (λ parts. IsSplitAtEach byte content.now (path_names parts.items)) }
{
    let mut parts = Vec::new(alloc);
    let mut rest = content;
    while let Some((part, after)) = split_at_byte(rest, byte) {
        parts.push(BString::from_slice(alloc, part)?)?;
        rest = after;
    }
    parts.push(BString::from_slice(alloc, rest)?)?;
    Ok(parts)
}
