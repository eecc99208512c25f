//! Listings of trees. For the trees of the folder examples/ the modes, ids and names are those that
//! `git ls-tree` prints. The names of kinds are those of gix-object, since git has none for programs and
//! links. The mode of a tree is that of its encoding, without the `0` that git prepends.

use super::{ONE_ENTRY, TREE, TREE_SHA256};
use crate::streams::{Row, answers};

const LISTED: &[u8] = b"\
100644 blob 1c0faac18742a237bcae8565123acd6705d2024d docs.txt
40000 tree b6532456130e3225202f17e070c9b8178ef8d922 docs
100644 blob ce013625030ba8dba906f756967f9e9ca394464a hello.txt
120000 link a5162f80d4a6782b7cb2a0a197f834e683cb9eb1 link
160000 commit 656d88de433ec9f9c5d4ed9b2c643844127a0fb4 module
100755 exe 21ba682558a42264518f1e0ba55e8a5cd9d7db0a run.sh
";

const LISTED_SHA256: &[u8] = b"\
100644 blob 04bc395b945c99dc8ecc9ab0539b1c53c3fb774a7764fbd2142615f30107fa30 docs.txt
40000 tree c66a2b30a22f801e33fbf564bd5e67bd21b66c7dcf1f9178b1ffa3d2eff62461 docs
100644 blob 2cf8d83d9ee29543b34a87727421fdecb7e3f3a183d337639025de576db9ebb4 hello.txt
120000 link 6cafa536fe7763ce8320204b29269847816b8a13216afd94b09c8aae7cf829a8 link
160000 commit 0dc599b3b0ab7db2ef28ab7bcd9a37ac991827a78d0d53a1ae438f3731f374d7 module
100755 exe 8112dc221b4f989cfc11b522518aed80ee50f2a8665fdd3321ab8e000ebe865d run.sh
";

const ONE_LINE: &[u8] = b"100644 blob 83baae61804e65cc73a7201a7252750c76066a30 test.txt\n";

const BAD_HEADER: &[u8] = b"gixobj: bad header\n";

const SHORT_DATA: &[u8] = b"gixobj: short data\n";

const NOT_A_TREE: &[u8] = b"gixobj: not a tree\n";

const BAD_TREE: &[u8] = b"gixobj: bad tree\n";

/// Trees and their listings, and inputs of which only the first fault is reported.
const ROWS: &[Row] = &[
    (
        "tree",
        b"tree 36\x00100644 test.txt\x00\x83\xba\xaea\x80Ne\xccs\xa7 \x1arRu\x0cv\x06j0and more",
        (0, ONE_LINE, b""),
    ),
    ("tree", TREE, (0, LISTED, b"")),
    ("tree sha256", TREE_SHA256, (0, LISTED_SHA256, b"")),
    ("tree", b"tree 0\0", (0, b"", b"")),
    ("tree sha256", b"tree 0\0and more", (0, b"", b"")),
    // names, unchanged
    (
        "tree",
        b"tree 37\x00100644 two\nlines\x00\x83\xba\xaea\x80Ne\xccs\xa7 \x1arRu\x0cv\x06j0",
        (
            0,
            b"100644 blob 83baae61804e65cc73a7201a7252750c76066a30 two\nlines\n",
            b"",
        ),
    ),
    (
        "tree",
        b"tree 32\x00100644 a \xff\t\x00\x83\xba\xaea\x80Ne\xccs\xa7 \x1arRu\x0cv\x06j0",
        (
            0,
            b"100644 blob 83baae61804e65cc73a7201a7252750c76066a30 a \xff\t\n",
            b"",
        ),
    ),
    // modes, as they are encoded
    (
        "tree",
        b"tree 29\x00040000 a\x00\x83\xba\xaea\x80Ne\xccs\xa7 \x1arRu\x0cv\x06j0",
        (
            0,
            b"040000 tree 83baae61804e65cc73a7201a7252750c76066a30 a\n",
            b"",
        ),
    ),
    (
        "tree",
        b"tree 29\x00100664 a\x00\x83\xba\xaea\x80Ne\xccs\xa7 \x1arRu\x0cv\x06j0",
        (
            0,
            b"100664 blob 83baae61804e65cc73a7201a7252750c76066a30 a\n",
            b"",
        ),
    ),
    (
        "tree",
        b"tree 29\x00100700 a\x00\x83\xba\xaea\x80Ne\xccs\xa7 \x1arRu\x0cv\x06j0",
        (
            0,
            b"100700 exe 83baae61804e65cc73a7201a7252750c76066a30 a\n",
            b"",
        ),
    ),
    ("tree", b"", (1, b"", BAD_HEADER)),
    ("tree", b"tree 0", (1, b"", BAD_HEADER)),
    ("tree", b"tree x\x00", (1, b"", BAD_HEADER)),
    ("tree", b"trees 0\x00", (1, b"", BAD_HEADER)),
    // short data: of a tree, of a tree with an invalid prefix, of another kind, with the prefix of a tree
    (
        "tree",
        b"tree 36\x00100644 test.txt\x00\x83\xba\xaea\x80Ne\xccs\xa7 \x1arRu\x0cv\x06",
        (1, b"", SHORT_DATA),
    ),
    ("tree", b"tree 7\x00hello\n", (1, b"", SHORT_DATA)),
    ("tree", b"tree 1\x00", (1, b"", SHORT_DATA)),
    ("tree", b"blob 7\x00hello\n", (1, b"", SHORT_DATA)),
    (
        "tree",
        b"blob 37\x00100644 test.txt\x00\x83\xba\xaea\x80Ne\xccs\xa7 \x1arRu\x0cv\x06j0",
        (1, b"", SHORT_DATA),
    ),
    // another kind, with content that is no tree, or that is a tree
    ("tree", b"blob 6\x00hello\n", (1, b"", NOT_A_TREE)),
    ("tree sha256", b"tag 0\x00", (1, b"", NOT_A_TREE)),
    (
        "tree",
        b"commit 36\x00100644 test.txt\x00\x83\xba\xaea\x80Ne\xccs\xa7 \x1arRu\x0cv\x06j0",
        (1, b"", NOT_A_TREE),
    ),
    // a malformed tree: from its first entry, after a valid entry, or with ids of the other hash kind
    ("tree", b"tree 6\x00hello\n", (1, b"", BAD_TREE)),
    (
        "tree",
        b"tree 35\x00100644 test.txt\x00\x83\xba\xaea\x80Ne\xccs\xa7 \x1arRu\x0cv\x06j0",
        (1, b"", BAD_TREE),
    ),
    (
        "tree",
        b"tree 42\x00100644 test.txt\x00\x83\xba\xaea\x80Ne\xccs\xa7 \x1arRu\x0cv\x06j0hello\n",
        (1, b"", BAD_TREE),
    ),
    ("tree sha256", ONE_ENTRY, (1, b"", BAD_TREE)),
    ("tree sha256", TREE, (1, b"", BAD_TREE)),
    ("tree", TREE_SHA256, (1, b"", BAD_TREE)),
];

#[test]
fn lists_trees_and_reports_first_fault(rt: HostRuntime) {
    for row in ROWS {
        assert!(rt; answers(rt.alloc(), row), "{row:?}");
    }
}

/// The line that `show` prints for the tree of one entry.
const SHOWN: &[u8] = b"tree 36 d8329fc1cc938780ffdd9f94e0d364e0ea74f579\n";

#[test]
fn tree_listing(rt: HostRuntime) {
    assert!(rt; answers(rt.alloc(), &("tree", ONE_ENTRY, (0, ONE_LINE, b""))));
    assert!(rt; answers(rt.alloc(), &("show", ONE_ENTRY, (0, SHOWN, b""))));
}
