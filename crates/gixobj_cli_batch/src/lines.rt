//! The parts of lines.
ghost use Rattle.std.specs.Prelude.{◌≡◌, ◌++◌, IfOk, OnOk, decimal};
ghost use Rattle.std.specs.List.{flat_map};
ghost use Rattle.gix_object.specs.Hash.{encode_id_hex};
ghost use Rattle.gix_object.specs.Calls.{names_of};
ghost use Rattle.gix_object.specs.Mode.{mode_bits};
ghost use Rattle.gixobj_cli_batch.specs.Lines.{commit_line, more_path_bytes, path_bytes, printed_mode};

use bstr::BString;
use gix_object::hash::ObjectId;
use gix_object::tree::EntryMode;
use itoa::Buffer;
use std::alloc::{AllocError, Global};

/// Appends an id in hex.
pub(crate) fn push_id(lines: &mut Vec<u8>, id: ObjectId) -> Result<(), AllocError>
    ensures { OnOk result (lines.new.items ≡ lines.old.items ++ encode_id_hex id) }
{
    let mut hex = [0u8; 64];
    lines.extend_from_slice(id.hex_to_buf(&mut hex).as_bytes())
}

/// Returns the lines of ids, one each.
pub(crate) fn lines_of_ids(alloc: Global, ids: &[ObjectId]) -> Result<Vec<u8>, AllocError>
    ensures { IfOk result (λ lines. lines.items ≡ flat_map commit_line ids.now) }
{
    let mut lines = Vec::new(alloc);
    for id in ids {
        push_id_line(&mut lines, *id)?;
    }
    Ok(lines)
}

/// Appends an id in hex, and a newline.
fn push_id_line(lines: &mut Vec<u8>, id: ObjectId) -> Result<(), AllocError>
    ensures { OnOk result (lines.new.items ≡ lines.old.items ++ commit_line id) }
{
    push_id(lines, id)?;
    lines.push(b'\n')?;
    Ok(())
}

/// Appends bytes, and a number in decimal.
pub(crate) fn push_number(
    lines: &mut Vec<u8>,
    before: &[u8],
    number: usize,
) -> Result<(), AllocError>
    ensures { OnOk result (lines.new.items ≡ lines.old.items ++ (before.now ++ decimal number)) }
{
    let mut digits = Buffer::new();
    lines.extend_from_slice(before)?;
    lines.extend_from_slice(digits.format(number).as_bytes())
}

/// Appends the mode of the kind of a mode.
pub(crate) fn push_mode(lines: &mut Vec<u8>, mode: EntryMode) -> Result<(), AllocError>
    ensures { OnOk result (lines.new.items ≡ lines.old.items ++ printed_mode (mode_bits mode)) }
{
    lines.extend_from_slice(mode.kind().as_octal_str().as_bytes())
}

/// Appends a path: names with slashes between them.
pub(crate) fn push_path(lines: &mut Vec<u8>, path: &[BString]) -> Result<(), AllocError>
    ensures { OnOk result (lines.new.items ≡ lines.old.items ++ path_bytes (names_of path.now)) }
{
    match path.split_first() {
        Some((first, rest)) => {
            lines.extend_from_slice(first.as_bytes())?;
            push_names(lines, rest)
        }
        None => Ok(()),
    }
}

/// Appends names, each after a slash.
fn push_names(lines: &mut Vec<u8>, names: &[BString]) -> Result<(), AllocError>
    ensures { OnOk result (lines.new.items
        ≡ lines.old.items ++ more_path_bytes (names_of names.now)) }
{
    for name in names {
        lines.push(b'/')?;
        lines.extend_from_slice(name.as_bytes())?;
    }
    Ok(())
}
