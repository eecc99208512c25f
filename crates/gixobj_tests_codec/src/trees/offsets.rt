//! Offsets of the reader of entries.

use super::EXAMPLE;
use crate::helpers::holds;
use gixobj_base::hash::Kind;
use gixobj_codec::laws::remaining_bytes_are_suffix;
use gixobj_codec::{TreeRef, TreeRefIter};
use std::alloc::{AllocError, Global};

/// Returns the offsets of the next entry: at first, and after each yielded entry or error.
fn offsets(alloc: Global, input: &[u8]) -> Result<Vec<usize>, AllocError> {
    remaining_bytes_are_suffix();
    let mut offsets = Vec::new(alloc);
    let mut seen = TreeRefIter::from_bytes(input, Kind::Sha1);
    offsets.push(seen.offset_to_next_entry(input))?;
    while seen.next().is_some() {
        offsets.push(seen.offset_to_next_entry(input))?;
    }
    Ok(offsets)
}

/// The offsets of the entries in the tree of the folder `examples`, and the end of the last one.
const OFFSETS: &[usize] = &[0, 36, 67, 104, 136, 170, 204];

/// Trees, and the offsets of their entries. After an error no bytes remain.
const TREES: &[(&[u8], &[usize])] = &[
    (EXAMPLE, OFFSETS),
    (b"", &[0]),
    (
        b"100644 a\0aaaaaaaaaaaaaaaaaaaa100648 b\0aaaaaaaaaaaaaaaaaaaa100644 c\0aaaaaaaaaaaaaaaaaaaa",
        &[0, 29, 87],
    ),
];

#[test]
fn offset_follows_each_entry_and_error(rt: HostRuntime) {
    for &(input, wanted) in TREES {
        let offsets = offsets(rt.alloc(), input);
        assert!(rt;
            holds!(&offsets, Ok(it) => it.as_slice() == wanted),
            "{wanted:?}"
        );
    }
}

/// A reader of the bytes from an offset yields the entries that remain. A copy of it keeps its position.
#[test]
fn resumes_from_each_offset(rt: HostRuntime) {
    let tree = TreeRef::from_bytes(rt.alloc(), EXAMPLE, Kind::Sha1);
    for (at, offset) in OFFSETS.iter().enumerate() {
        let rest = EXAMPLE.get(*offset..).unwrap_or(b"");
        let mut seen = TreeRefIter::from_bytes(rest, Kind::Sha1);
        let copy = seen;
        assert!(rt; seen.next().is_some() == (at < 6), "{offset}");
        assert!(rt; seen.count() == 5usize.saturating_sub(at), "{offset}");
        assert!(rt; copy.count() == 6usize.saturating_sub(at), "{offset}");
        let entries = copy.entries(rt.alloc());
        assert!(rt;
            holds!((&tree, &entries), (Ok(tree), Ok(it)) => tree.entries.get(at..) == Some(it.as_slice())),
            "{offset}"
        );
    }
}
