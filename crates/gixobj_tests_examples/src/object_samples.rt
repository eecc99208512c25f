//! Samples and a check that several modules share.

/// The id of the empty tree.
pub(crate) const TREE: &[u8] = b"4b825dc642cb6eb9a060e54bf8d69288fbee4904";

/// Input that doesn't decode as a commit.
pub(crate) const TRUNCATED: &[u8] = b"tree 4b";

/// Whether these are the bytes of a copy.
pub(crate) fn is_copy<E>(copied: &Result<Vec<u8>, E>, bytes: &[u8]) -> bool {
    match copied {
        Ok(copy) => copy.as_slice() == bytes,
        Err(_) => false,
    }
}
