//! Objects that tests of the guide share: two commits, a tag, and a tree. Their ids are those that git prints.

pub const BLOB: &[u8] = b"ce013625030ba8dba906f756967f9e9ca394464a";

/// Id that `git mktree` prints for the file `a.txt` with this blob and for `run.sh`, empty and executable.
pub const TREE: &[u8] = b"6a1189fc1d3cfd1b49810fec0ce01390b8239044";

pub const TREE_BYTES: &[u8] = b"100644 a.txt\0\
    \xce\x01\x36\x25\x03\x0b\xa8\xdb\xa9\x06\xf7\x56\x96\x7f\x9e\x9c\xa3\x94\x46\x4a\
    100755 run.sh\0\
    \xe6\x9d\xe2\x9b\xb2\xd1\xd6\x43\x4b\x8b\x29\xae\x77\x5a\xd8\xc2\xe4\x8c\x53\x91";

/// Id that `git hash-object -t commit` prints for the first commit.
pub const FIRST: &[u8] = b"cfe258e596ae478f05508755d7b1559681b5833a";

pub const FIRST_BYTES: &[u8] = b"tree 4b825dc642cb6eb9a060e54bf8d69288fbee4904\n\
    author A <a@b> 0 +0000\n\
    committer A <a@b> 0 +0000\n\
    \nfirst\n";

/// Id that `git hash-object -t commit` prints for the second commit.
pub const SECOND: &[u8] = b"df0d5713d06ef4f4e7699d6813312b896de0436b";

/// The second commit, a child of the first.
pub const SECOND_BYTES: &[u8] = b"tree 6a1189fc1d3cfd1b49810fec0ce01390b8239044\n\
    parent cfe258e596ae478f05508755d7b1559681b5833a\n\
    author A U Thor <a@b> 7 +0100\n\
    committer A <a@b> 8 +0000\n\
    \nsecond\n\nSigned-off-by: A\n";

/// A tag of the first commit.
pub const TAG_BYTES: &[u8] =
    b"object cfe258e596ae478f05508755d7b1559681b5833a\ntype commit\ntag v1\ntagger A <a@b> 0 +0000\n\nhi\n";
