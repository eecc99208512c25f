//! A history of 1,000 steps of three edits, as `git fast-import` makes it. `examples/imports.py` has the rule
//! of the steps and prints the ids. Each commit names its parent, so that the last id depends on all commits.

use super::samples::import;
use crate::samples::{id, string_of};
use bstr::BString;
use gix_object::actor::Signature;
use gix_object::date::Time;
use gix_object::hash::{Kind as HashKind, ObjectId};
use gix_object::import::{Imported, Importer, Step};
use gix_object::tree::EntryKind;
use gix_object::tree::editor::Edit;
use gix_object::{Kind, Memory, compute_hash};
use std::alloc::{AllocError, Global};

/// A step: its index, its commit and the tree of that.
type Row = (usize, &'static str, &'static str);

/// Every hundredth step by SHA-1.
const SHA1: [Row; 10] = [
    (
        99,
        "c5747a8bcdc5e80868da681248d2f890099725e2",
        "86d34fb62053a5970814a868cf13f16f593a4c31",
    ),
    (
        199,
        "6d2d9037785ee9bfe89777b9587c68abaa334424",
        "b71ad4e09e55bb16188e804d5c8b551eead48cc0",
    ),
    (
        299,
        "f948dfec927d88a74be870bbba755fcb092278ed",
        "79284fa27a4ce3e39ada81a51eba20a12d0a79ba",
    ),
    (
        399,
        "a12607412e4051ad39b28bae71425a7a3b991a79",
        "6d6e70818c7dc05894c54914559e6ca84c373768",
    ),
    (
        499,
        "758685c040d8b18eb6e1f864839f94d91262dc55",
        "d1aee0b4d1317337938c2f61020fd139fb20c02a",
    ),
    (
        599,
        "11286a2ec65cbc5b45f02389c9980098f3ab472c",
        "100ba1d1f18d762b156928b0c77f5b469f46ddd8",
    ),
    (
        699,
        "0f14cf36f67a7cf873adc77e036c4b4ce6648e05",
        "88ec6bbd306b517daa273db2892f95153a2ab5b8",
    ),
    (
        799,
        "13bb5947fcf4a3584ec0641803d8ca3e21e4fea2",
        "a35ffc71f4dd7470c0d422f6d2055800272bce57",
    ),
    (
        899,
        "b7e6a8b2d11cfdc469999cfa25b0b1d5a2d9b023",
        "d6951ad47ae01be03aa77268d97303661e98efe1",
    ),
    (
        999,
        "01d2c92444372001ffe90c0b4398be1f8ebd1a05",
        "6ce7d530f8de08c2cfc6e0d3ba925634174e438f",
    ),
];

/// The last step by SHA-256.
const SHA256: [Row; 1] = [(
    999,
    "80a3e1e705aa74d91883803f299d64e2ebb7361530f8c25447605985cfcdd7f6",
    "eeda10ef318307afc1a34b1613a17f782fc1bfb7510a041fe79af4795eca86e7",
)];

/// A string of a number between two tokens. Empty if memory runs out.
fn numbered(alloc: Global, before: &str, number: u32, after: &str) -> BString {
    match format!(in alloc; "{before}{number}{after}") {
        Ok(bytes) => string_of(alloc, bytes.as_bytes()),
        Err(_) => string_of(alloc, b""),
    }
}

/// A path of numbered names. Shorter if memory runs out.
fn path_of(alloc: Global, names: &[(&str, u32)]) -> Vec<BString> {
    let mut path = Vec::new(alloc);
    for &(name, number) in names {
        let _ = path.push(numbered(alloc, name, number, ""));
    }
    path
}

/// A path of two directories and a file.
fn file_at(alloc: Global, number: u32) -> Vec<BString> {
    let names = [("a", number % 10), ("b", number % 7), ("f", number % 50)];
    path_of(alloc, &names)
}

/// The id of the blob of a number and a newline.
fn blob_of(alloc: Global, hash: HashKind, number: u32) -> Result<ObjectId, AllocError> {
    let bytes = format!(in alloc; "{number}\n")?;
    Ok(compute_hash(hash, Kind::Blob, bytes.as_bytes()))
}

/// The edits of a step: two files with the step's number, and a removed file. Fewer if memory runs out.
fn edits_of(alloc: Global, number: u32, id: ObjectId) -> Vec<Edit> {
    let mut edits = Vec::new(alloc);
    let _ = edits.push(Edit::Upsert {
        path: file_at(alloc, number),
        kind: EntryKind::Blob,
        id,
    });
    let _ = edits.push(Edit::Upsert {
        path: path_of(alloc, &[("run", number % 25)]),
        kind: EntryKind::BlobExecutable,
        id,
    });
    let _ = edits.push(Edit::Remove {
        path: file_at(alloc, number.wrapping_mul(3).wrapping_add(1)),
    });
    edits
}

/// An actor at the time of a step, at an offset in seconds east of UTC.
fn actor_at(alloc: Global, name: &[u8], email: &[u8], number: u32, offset: i32) -> Signature {
    Signature {
        name: string_of(alloc, name),
        email: string_of(alloc, email),
        time: Time::new(i64::from(number), offset).unwrap_or_default(),
    }
}

/// The step with a number. Without parts if memory runs out.
fn step_of(alloc: Global, hash: HashKind, number: u32) -> Step {
    let id = blob_of(alloc, hash, number).unwrap_or(ObjectId::null(hash));
    Step {
        edits: edits_of(alloc, number, id),
        author: actor_at(alloc, b"A", b"a@b", number, 0),
        committer: actor_at(alloc, b"C O", b"c@d", number, 5400),
        message: numbered(alloc, "step ", number, "\n"),
    }
}

/// The 1,000 steps. Fewer if memory runs out.
fn all_steps(alloc: Global, hash: HashKind) -> Vec<Step> {
    let mut steps = Vec::new(alloc);
    for number in 0..1000u32 {
        let _ = steps.push(step_of(alloc, hash, number));
    }
    steps
}

/// Whether these are 1,000 steps, with the commits and trees of the rows.
fn are_steps(imported: &[Imported], rows: &[Row]) -> bool {
    for &(index, commit, tree) in rows {
        match imported.get(index) {
            Some(it)
                if it.commit == id(commit.as_bytes()) && it.written.id == id(tree.as_bytes()) => {}
            _ => return false,
        }
    }
    imported.len() == 1000
}

/// Whether all steps are imported, with the commits and trees of the rows.
fn are_imported(alloc: Global, hash: HashKind, rows: &[Row]) -> bool {
    let mut importer = Importer::new(alloc, Memory::new(alloc), hash);
    let outcome = import(&mut importer, &all_steps(alloc, hash));
    outcome.error.is_none() && are_steps(&outcome.done, rows)
}

#[test]
fn imports_thousand_steps_by_each_hash(rt: HostRuntime) {
    assert!(rt; are_imported(rt.alloc(), HashKind::Sha1, &SHA1));
    assert!(rt; are_imported(rt.alloc(), HashKind::Sha256, &SHA256));
}
