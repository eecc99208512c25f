//! Runs of the entire program over readers and writers in memory that may fail.

use super::{COMMIT, COMMIT_SHA256, ONE_ENTRY, TAG, TAG_SHA256, TREE, TREE_SHA256};
use crate::engine::{NESTED, NESTED_LINES};
use crate::streams::{
    Expected, Row, USAGE, answers, answers_reader, arguments_in, ends_with, status_of,
};
use gixobj_cli_show::engine::run;
use gixobj_tests_base::limited::{Limited, Stepping};
use std::alloc::Global;
use std::io;
use std::io::{ErrorKind, Read};

/// A reader that is interrupted once before each byte.
#[derive(Drop)]
struct Interrupted<'a> {
    rest: &'a [u8],
    is_next: bool,
}

impl Read for Interrupted<'_> {
    fn read(&mut self, buf: &mut [u8]) -> io::Result<usize> {
        self.is_next = !self.is_next;
        if self.is_next {
            return Err(io::Error::from(ErrorKind::Interrupted));
        }
        let count = self.rest.len().min(buf.len()).min(1);
        let (prefix, rest) = self.rest.split_at(count);
        buf[..count].copy_from_slice(prefix);
        self.rest = rest;
        Ok(count)
    }
}

const HELLO: &[u8] = b"blob 6 ce013625030ba8dba906f756967f9e9ca394464a\n";

const HELLO_SHA256: &[u8] =
    b"blob 6 2cf8d83d9ee29543b34a87727421fdecb7e3f3a183d337639025de576db9ebb4\n";

/// The listing of a tree of one entry.
const LINE: &[u8] = b"100644 blob 83baae61804e65cc73a7201a7252750c76066a30 test.txt\n";

const BAD_HEADER: &[u8] = b"gixobj: bad header\n";

const BAD_TREE: &[u8] = b"gixobj: bad tree\n";

const SHORT_DATA: &[u8] = b"gixobj: short data\n";

const OUTPUT_FAILED: &[u8] = b"gixobj: output failed\n";

#[test]
fn show_hello(rt: HostRuntime) {
    let row: Row = ("show", b"blob 6\0hello\n", (0, HELLO, b""));
    assert!(rt; answers(rt.alloc(), &row));
}

const SHOWN: &[Row] = &[
    ("show", b"blob 6\0hello\nand more", (0, HELLO, b"")),
    ("show sha256", b"blob 6\0hello\n", (0, HELLO_SHA256, b"")),
    // what git prints for the objects of the folder examples/
    (
        "show",
        TREE,
        (
            0,
            b"tree 204 932696bf4fc5904284abc872dd6ae7421b4e9e19\n",
            b"",
        ),
    ),
    (
        "show",
        ONE_ENTRY,
        (
            0,
            b"tree 36 d8329fc1cc938780ffdd9f94e0d364e0ea74f579\n",
            b"",
        ),
    ),
    (
        "show",
        COMMIT,
        (
            0,
            b"commit 124 2b09c4737e7ae776810443d28ff15aaacfd1bfbf\n",
            b"",
        ),
    ),
    (
        "show",
        TAG,
        (
            0,
            b"tag 116 0009ef8aeac91308dee7c2d17f4718361fae5abf\n",
            b"",
        ),
    ),
    (
        "show sha256",
        TREE_SHA256,
        (
            0,
            b"tree 276 b50197883fb00da94cd610867bae1cb42a03a69c9058b0c225a8eeec98c95ba0\n",
            b"",
        ),
    ),
    (
        "show sha256",
        COMMIT_SHA256,
        (
            0,
            b"commit 148 e4aa6687cfcffe18739323f0e6717f02235e94bc9eb7a83ac0b46a510819fb5d\n",
            b"",
        ),
    ),
    (
        "show sha256",
        TAG_SHA256,
        (
            0,
            b"tag 140 da49275eeb470f018e41d0d56c9dc7e1c9e996f08b0093a2b2daf1d3e11d3148\n",
            b"",
        ),
    ),
    // sizes, faults and arguments
    (
        "show",
        b"blob +0\0",
        (0, b"blob 0 e69de29bb2d1d6434b8b29ae775ad8c2e48c5391\n", b""),
    ),
    (
        "show",
        b"tree -0\0rest",
        (0, b"tree 0 4b825dc642cb6eb9a060e54bf8d69288fbee4904\n", b""),
    ),
    ("show", b"", (1, b"", BAD_HEADER)),
    ("show", b"blob 6", (1, b"", BAD_HEADER)),
    ("show", b"blub 6\0hello\n", (1, b"", BAD_HEADER)),
    ("show", b"blob -6\0hello\n", (1, b"", BAD_HEADER)),
    ("show", b"blob 7\0hello\n", (1, b"", SHORT_DATA)),
    (
        "show sha256",
        b"blob 18446744073709551615\0",
        (1, b"", SHORT_DATA),
    ),
    ("", b"blob 6\0hello\n", (2, b"", USAGE)),
    ("show sha1", b"blob 6\0hello\n", (2, b"", USAGE)),
    ("tree sha1", b"tree 0\0", (2, b"", USAGE)),
    ("tree tree", b"tree 0\0", (2, b"", USAGE)),
    ("sha256 tree", b"tree 0\0", (2, b"", USAGE)),
    ("Tree", b"tree 0\0", (2, b"", USAGE)),
    ("show tree", b"tree 0\0", (2, b"", USAGE)),
    ("show sha256 sha256", b"blob 6\0hello\n", (2, b"", USAGE)),
];

#[test]
fn shows_objects_and_reports_faults(rt: HostRuntime) {
    for row in SHOWN {
        assert!(rt; answers(rt.alloc(), row), "{row:?}");
    }
}

const READ: &[Row] = &[
    ("show", b"blob 6\0hello\n", (0, HELLO, b"")),
    ("tree", ONE_ENTRY, (0, LINE, b"")),
    ("tree", b"tree", (1, b"", BAD_HEADER)),
    ("tree", b"tree 6\0hello\n", (1, b"", BAD_TREE)),
    ("edit", NESTED, (0, NESTED_LINES, b"")),
];

/// Returns whether the program has this result for the input of a row if the reader yields at most `step`
/// bytes in each call. The reader fails at the end if `fails` is set.
fn answers_in_steps(
    alloc: Global,
    row: &Row,
    step: usize,
    fails: bool,
    expected: Expected,
) -> bool {
    let mut reader = Stepping {
        rest: row.1,
        step,
        fails,
    };
    answers_reader(alloc, row.0, &mut reader, expected)
}

/// Returns whether the program has the result of a row for a reader that yields at most `step` bytes in each
/// call, and fails, without any output, if that reader fails at the end.
fn is_read_in_steps(alloc: Global, row: &Row, step: usize) -> bool {
    let failed: Expected = (1, b"", b"gixobj: input failed\n");
    answers_in_steps(alloc, row, step, false, row.2)
        && answers_in_steps(alloc, row, step, true, failed)
}

/// Returns whether the program has the result of a row if the reader is interrupted before each byte.
fn answers_interrupted(alloc: Global, row: &Row) -> bool {
    let mut reader = Interrupted {
        rest: row.1,
        is_next: false,
    };
    answers_reader(alloc, row.0, &mut reader, row.2)
}

#[test]
fn reads_in_steps_and_after_interruptions(rt: HostRuntime) {
    for row in READ {
        assert!(rt; is_read_in_steps(rt.alloc(), row, 1), "{row:?}");
        assert!(rt; is_read_in_steps(rt.alloc(), row, 5), "{row:?}");
        assert!(rt; is_read_in_steps(rt.alloc(), row, 4096), "{row:?}");
        assert!(rt; answers_interrupted(rt.alloc(), row), "{row:?}");
    }
}

/// Runs whose writes to standard output fail.
const UNWRITTEN: &[Row] = &[
    ("show", b"blob 6\0hello\n", (1, b"", OUTPUT_FAILED)),
    ("show", b"", (1, b"", BAD_HEADER)),
    ("tree", ONE_ENTRY, (1, b"", OUTPUT_FAILED)),
    ("tree", b"tree 6\0hello\n", (1, b"", BAD_TREE)),
    ("tree", b"tree 0\0", (0, b"", b"")),
    ("edit", NESTED, (1, b"", OUTPUT_FAILED)),
    ("", b"", (2, b"", USAGE)),
];

/// Returns a writer that has room for `room` bytes.
fn narrow_writer(alloc: Global, room: usize) -> Limited {
    let held = Vec::new(alloc);
    Limited { held, room }
}

/// Returns whether the program has the result of a row if each write to standard output fails, and ends with its
/// status if each write to both outputs fails.
fn ends_if_unwritten(alloc: Global, row: &Row) -> bool {
    let mut first = row.1;
    let mut second = row.1;
    let mut output = narrow_writer(alloc, 0);
    let mut errors = narrow_writer(alloc, 0);
    ends_with(alloc, row.0, &mut first, &mut output, (row.2.0, row.2.2))
        && status_of(alloc, row.0, &mut second, &mut output, &mut errors) == Some(row.2.0)
}

#[test]
fn ends_with_status_if_writers_fail(rt: HostRuntime) {
    for row in UNWRITTEN {
        assert!(rt; ends_if_unwritten(rt.alloc(), row), "{row:?}");
    }
}

/// Arguments, input and output, and how many bytes of the output a writer has room for.
const NARROW: &[(&str, &[u8], &[u8], usize)] = &[
    ("tree", ONE_ENTRY, LINE, 1),
    ("tree", ONE_ENTRY, LINE, 12),
    ("tree", ONE_ENTRY, LINE, 61),
    ("edit", NESTED, NESTED_LINES, 5),
];

/// Returns whether the program fails in the middle of a line, after it wrote as many bytes as the writer has
/// room for.
fn fails_in_mid_line(alloc: Global, line: &str, input: &[u8], output: &[u8], room: usize) -> bool {
    let mut rest = input;
    let mut narrow = narrow_writer(alloc, room);
    ends_with(alloc, line, &mut rest, &mut narrow, (1, OUTPUT_FAILED))
        && output.starts_with(narrow.held.as_slice())
        && narrow.held.len() == room
}

#[test]
fn fails_if_writer_fails_in_mid_line(rt: HostRuntime) {
    for &(line, input, output, room) in NARROW {
        assert!(rt;
            fails_in_mid_line(rt.alloc(), line, input, output, room),
            "{line} {room}"
        );
    }
}

/// Runs of the program with only `show`, and how many bytes of the input each leaves. For other arguments nothing
/// is read.
const ALONE: &[(Row, usize)] = &[
    (("show", b"blob 6\0hello\n", (0, HELLO, b"")), 0),
    (("tree", ONE_ENTRY, (2, b"", USAGE)), 44),
    (("tree sha256", ONE_ENTRY, (2, b"", USAGE)), 44),
    (("edit", ONE_ENTRY, (2, b"", USAGE)), 44),
    (("show sha1", ONE_ENTRY, (2, b"", USAGE)), 44),
    (("", ONE_ENTRY, (2, b"", USAGE)), 44),
];

/// Returns whether the program with only `show` has the result of a row, and leaves `remaining` bytes of the input.
fn answers_alone(alloc: Global, row: &Row, remaining: usize) -> bool {
    let (status, output, error) = row.2;
    let mut rest = row.1;
    let mut written = Vec::new(alloc);
    let mut errors = Vec::new(alloc);
    let Ok(arguments) = arguments_in(alloc, row.0) else {
        return false;
    };
    run(
        alloc,
        arguments.as_slice(),
        &mut rest,
        &mut written,
        &mut errors,
    ) == status
        && written.as_slice() == output
        && errors.as_slice() == error
        && rest.len() == remaining
}

#[test]
fn show_alone_prints_line_or_reads_nothing(rt: HostRuntime) {
    for (row, remaining) in ALONE {
        assert!(rt; answers_alone(rt.alloc(), row, *remaining), "{row:?}");
    }
}
