//! Loose objects, shown and listed by the program. The shared objects are those of the folder examples/, as
//! `git` wrote them.

mod listings;
mod runs;

/// A tree of six entries: two files, a program, a symbolic link, a tree and a submodule.
pub(crate) const TREE: &[u8] =
    b"tree 204\x00100644 docs.txt\x00\x1c\x0f\xaa\xc1\x87B\xa27\xbc\xae\x85e\x12:\xcdg\x05\xd2\x02M\
    40000 docs\x00\xb6S$V\x13\x0e2% /\x17\xe0p\xc9\xb8\x17\x8e\xf8\xd9\"\
    100644 hello.txt\x00\xce\x016%\x03\x0b\xa8\xdb\xa9\x06\xf7V\x96\x7f\x9e\x9c\xa3\x94FJ\
    120000 link\x00\xa5\x16/\x80\xd4\xa6x+|\xb2\xa0\xa1\x97\xf84\xe6\x83\xcb\x9e\xb1\
    160000 module\x00em\x88\xdeC>\xc9\xf9\xc5\xd4\xed\x9b,d8D\x12z\x0f\xb4\
    100755 run.sh\x00!\xbah%X\xa4\"dQ\x8f\x1e\x0b\xa5^\x8a\\\xd9\xd7\xdb\n";

/// The first commit, of the tree [`TREE`].
pub(crate) const COMMIT: &[u8] = b"commit 124\x00tree 932696bf4fc5904284abc872dd6ae7421b4e9e19\n\
    author A <a@b> 1700000000 +0000\n\
    committer A <a@b> 1700000000 +0000\n\
    \nSay hello\n";

/// An annotated tag of the commit [`COMMIT`].
pub(crate) const TAG: &[u8] = b"tag 116\x00object 2b09c4737e7ae776810443d28ff15aaacfd1bfbf\n\
    type commit\n\
    tag v1.0\n\
    tagger A <a@b> 1700000000 +0000\n\
    \nThe first one\n";

/// The tree [`TREE`] in a repository of SHA-256.
pub(crate) const TREE_SHA256: &[u8] =
    b"tree 276\x00100644 docs.txt\x00\x04\xbc9[\x94\\\x99\xdc\x8e\xcc\x9a\xb0S\x9b\x1cS\xc3\xfbwJwd\xfb\xd2\x14\
    &\x15\xf3\x01\x07\xfa0\
    40000 docs\x00\xc6j+0\xa2/\x80\x1e3\xfb\xf5d\xbd^g\xbd!\xb6l}\xcf\x1f\x91x\xb1\xff\xa3\xd2\xef\xf6$a\
    100644 hello.txt\x00,\xf8\xd8=\x9e\xe2\x95C\xb3J\x87rt!\xfd\xec\xb7\xe3\xf3\xa1\x83\xd37c\x90%\xdeWm\xb9\
    \xeb\xb4\
    120000 link\x00l\xaf\xa56\xfewc\xce\x83  K)&\x98G\x81k\x8a\x13!j\xfd\x94\xb0\x9c\x8a\xae|\xf8)\xa8\
    160000 module\x00\x0d\xc5\x99\xb3\xb0\xab}\xb2\xef(\xab{\xcd\x9a7\xac\x99\x18'\xa7\x8d\x0dS\xa1\xaeC\x8f\
    71\xf3t\xd7\
    100755 run.sh\x00\x81\x12\xdc\"\x1bO\x98\x9c\xfc\x11\xb5\"Q\x8a\xed\x80\xeeP\xf2\xa8f_\xdd3!\xab\x8e\x00\
    \x0e\xbe\x86]";

/// The commit [`COMMIT`] in a repository of SHA-256.
pub(crate) const COMMIT_SHA256: &[u8] =
    b"commit 148\x00tree b50197883fb00da94cd610867bae1cb42a03a69c9058b0c225a8eeec98c95ba0\n\
    author A <a@b> 1700000000 +0000\n\
    committer A <a@b> 1700000000 +0000\n\
    \nSay hello\n";

/// The tag [`TAG`] in a repository of SHA-256.
pub(crate) const TAG_SHA256: &[u8] =
    b"tag 140\x00object e4aa6687cfcffe18739323f0e6717f02235e94bc9eb7a83ac0b46a510819fb5d\n\
    type commit\n\
    tag v1.0\n\
    tagger A <a@b> 1700000000 +0000\n\
    \nThe first one\n";

/// A tree of one entry.
pub(crate) const ONE_ENTRY: &[u8] =
    b"tree 36\x00100644 test.txt\x00\x83\xba\xaea\x80Ne\xccs\xa7 \x1arRu\x0cv\x06j0";
