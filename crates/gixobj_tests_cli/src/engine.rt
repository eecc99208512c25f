//! Runs of the entire program over memory. Ids are those that `git mktree --missing` prints.

mod allocation_failures;

use crate::streams::{Row, USAGE, answers};

pub(crate) const NESTED: &[u8] = b"upsert blob 83baae61804e65cc73a7201a7252750c76066a30 bak/test.txt
upsert blob fa49b077972391ad58037050f2a75f74e3671e92 new.txt
upsert blob 1f7a7a472abf3dd9643fd615f6da379c4acb3e3a test.txt
write
";

pub(crate) const NESTED_LINES: &[u8] = b"ok
ok
ok
wrote 3c4e9cd789d88d8d89c1073707c3585e41b0e614 2
lookups 0
";

const LEAF: &[u8] = b"upsert blob 83baae61804e65cc73a7201a7252750c76066a30 a/b
leaf a
remove a
write";

const LEAF_LINES: &[u8] = b"ok
refused 4 a
ok
wrote 4b825dc642cb6eb9a060e54bf8d69288fbee4904 1
lookups 0
";

/// Edits before and after writes: an emitted directory is looked up again.
const WRITES: &[u8] = b"upsert blob fa49b077972391ad58037050f2a75f74e3671e92 new.txt
upsert blob 1f7a7a472abf3dd9643fd615f6da379c4acb3e3a test.txt
at bak upsert blob 83baae61804e65cc73a7201a7252750c76066a30 test.txt
write
remove bak/none
write
at bak write
leaf bak/test.txt
write
upsert blob 83baae61804e65cc73a7201a7252750c76066a30 q//r
";

const WRITES_LINES: &[u8] = b"ok
ok
ok
wrote 3c4e9cd789d88d8d89c1073707c3585e41b0e614 2
ok
wrote 3c4e9cd789d88d8d89c1073707c3585e41b0e614 1
wrote d8329fc1cc938780ffdd9f94e0d364e0ea74f579 1
ok
wrote 0155eb4229851634a0f03eb265b69f5a2d56f341 1
refused 1
lookups 2
";

const SHA256_LINES: &[u8] = b"ok
wrote 6ef19b41225c5369f1c104d45d8d85efa9b057b53b14b4b9b939dd74decc5321 1
lookups 0
";

/// The first script (`edit-nested`) inserts three files, one in a directory. The second (`edit-leaf`) fails to
/// remove a directory as a leaf, and then removes it. The third edits before and after writes. The last runs have
/// invalid arguments or input.
const ROWS: &[Row] = &[
    ("edit", NESTED, (0, NESTED_LINES, b"")),
    ("edit", LEAF, (0, LEAF_LINES, b"")),
    ("edit", WRITES, (0, WRITES_LINES, b"")),
    ("edit", b"", (0, b"lookups 0\n", b"")),
    ("edit sha256", b"root\nwrite", (0, SHA256_LINES, b"")),
    ("edit", b"write\nfoo", (1, b"", b"gixobj: line 2\n")),
    (
        "edit",
        b"\n\nwrite\nupsert blob 00 a\n",
        (1, b"", b"gixobj: line 4\n"),
    ),
    ("edit sha1", b"write\n", (2, b"", USAGE)),
    ("edit sha256 sha256", b"write\n", (2, b"", USAGE)),
    ("tree", b"blob 0\0", (1, b"", b"gixobj: not a tree\n")),
    ("", b"write\n", (2, b"", USAGE)),
];

#[test]
fn prints_reports_of_scripts(rt: HostRuntime) {
    for row in ROWS {
        assert!(rt; answers(rt.alloc(), row), "{row:?}");
    }
}
