//! Trees: failing writers, empty trees, and offsets of the reader.

mod offsets;
mod writers;

use crate::helpers::holds;
use gixobj_base::hash::Kind;
use gixobj_codec::TreeRef;

/// The encoding of a file's entry with the id of ones, of 29 bytes.
pub(crate) const ENTRY: &[u8] = b"100644 a\0\
    \x01\x01\x01\x01\x01\x01\x01\x01\x01\x01\x01\x01\x01\x01\x01\x01\x01\x01\x01\x01";

/// The tree of the folder `examples`.
const EXAMPLE: &[u8] =
    b"100644 docs.txt\0\x1c\x0f\xaa\xc1\x87\x42\xa2\x37\xbc\xae\x85\x65\x12\x3a\xcd\x67\x05\xd2\x02\x4d\
    40000 docs\0\xb6\x53\x24\x56\x13\x0e\x32\x25\x20\x2f\x17\xe0\x70\xc9\xb8\x17\x8e\xf8\xd9\x22\
    100644 hello.txt\0\xce\x01\x36\x25\x03\x0b\xa8\xdb\xa9\x06\xf7\x56\x96\x7f\x9e\x9c\xa3\x94\x46\x4a\
    120000 link\0\xa5\x16\x2f\x80\xd4\xa6\x78\x2b\x7c\xb2\xa0\xa1\x97\xf8\x34\xe6\x83\xcb\x9e\xb1\
    160000 module\0\x65\x6d\x88\xde\x43\x3e\xc9\xf9\xc5\xd4\xed\x9b\x2c\x64\x38\x44\x12\x7a\x0f\xb4\
    100755 run.sh\0\x21\xba\x68\x25\x58\xa4\x22\x64\x51\x8f\x1e\x0b\xa5\x5e\x8a\x5c\xd9\xd7\xdb\x0a";

/// The empty tree and its owned forms hold no allocation.
#[test]
fn empty_tree_allocates_nothing(rt: HostRuntime) {
    let alloc = rt.alloc();
    let owned_again = TreeRef::empty(alloc).to_owned(alloc);
    let owned = TreeRef::empty(alloc).into_owned(alloc);
    let decoded = TreeRef::from_bytes(alloc, b"", Kind::Sha1);
    assert!(rt; TreeRef::empty(alloc).entries.capacity() == 0);
    assert!(rt; holds!(&owned_again, Ok(it) => it.entries.capacity() == 0));
    assert!(rt; holds!(&owned, Ok(it) => it.entries.capacity() == 0));
    assert!(rt; holds!(&decoded, Ok(it) => it.entries.capacity() == 0));
}
