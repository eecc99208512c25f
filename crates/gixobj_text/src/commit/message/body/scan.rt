//! The scan over the lines of a body for its last run and its trailer block.
ghost use Rattle.std.specs.Prelude.{◌≡◌, ◌<◌, ◌≤◌, ◌+◌, ◌^◌, ◌≢◌, ℕ, List, [], ◌∷◌, ◌++◌, length, true, false, IsTrue};
ghost use Rattle.std.specs.Prelude.{IsFalse};
ghost use Rattle.bstr.specs.Text.{lines_of};
ghost use Rattle.gixobj_text.specs.BodyLines.{is_blank, trimmed_line};
ghost use Rattle.gixobj_text.specs.Scanned.{AddsLine, Scanned};
ghost use Rattle.gixobj_text.specs.TrailerBlocks.{IsTrailerBlockStart};

use crate::commit::message::body::line_counts::LineCounts;
use crate::commit::message::body::lines::{is_blank_line, line_content, split_line};

/// The state of a scan after some lines.
#[derive(Clone, Copy)]
pub(crate) struct Scan {
    /// The number of bytes of the lines.
    position: usize,
    /// The offset after the content of the last line.
    last: usize,
    /// The start of a trailer block whose run begins at the next line.
    next: usize,
    /// The start of a trailer block of the last run.
    start: usize,
    /// Whether the next line, if it isn't blank, continues the last run.
    going: bool,
    /// Whether there is a run.
    some: bool,
    /// The counts of the last run.
    run: LineCounts,
}

impl Scan {
    /// Returns the state before the first line.
    pub(crate) fn new() -> Scan
        ensures scanned { Scanned [] result }
        ensures position { result.position ≡ 0 }
        ensures trailers { result.run.trailers ≤ 0 }
        ensures others { result.run.others ≤ 0 }
    {
        Scan {
            position: 0,
            last: 0,
            next: 0,
            start: 0,
            going: false,
            some: false,
            run: LineCounts::new(),
        }
    }

    /// Adds a blank line, whose content ends at `last`.
    #[inline(always)]
    fn with_blank(self, line: &[u8], last: usize) -> Scan
        requires last { last ≡ self.position + length (trimmed_line line.now) }
        requires blank { IsTrue (is_blank line.now) }
        requires fits { self.position + length line.now < 2 ^ 64 }
        ensures scanned { AddsLine self line.now result }
        ensures position { result.position ≡ self.position + length line.now }
        ensures run { result.run ≡ self.run }
    {
        Scan {
            position: self.position + line.len(),
            last,
            next: self.last,
            start: self.start,
            going: false,
            some: self.some,
            run: self.run,
        }
    }

    /// Adds a line that continues the last run, and whose content ends at `last`.
    #[inline(always)]
    fn with_next(self, line: &[u8], last: usize) -> Scan
        requires last { last ≡ self.position + length (trimmed_line line.now) }
        requires not_blank { IsFalse (is_blank line.now) }
        requires proceeds { self.going ≡ true }
        requires fits { self.position + length line.now < 2 ^ 64 }
        requires trailers { self.run.trailers + 1 < 2 ^ 64 }
        requires others { self.run.others + 1 < 2 ^ 64 }
        ensures scanned { AddsLine self line.now result }
        ensures position { result.position ≡ self.position + length line.now }
        ensures trailers { result.run.trailers ≤ self.run.trailers + 1 }
        ensures others { result.run.others ≤ self.run.others + 1 }
    {
        Scan {
            position: self.position + line.len(),
            last,
            next: self.next,
            start: self.start,
            going: true,
            some: true,
            run: self.run.with_line(line),
        }
    }

    /// Adds a line that begins a run, and whose content ends at `last`.
    #[inline(always)]
    fn with_first(self, line: &[u8], last: usize) -> Scan
        requires last { last ≡ self.position + length (trimmed_line line.now) }
        requires not_blank { IsFalse (is_blank line.now) }
        requires proceeds { self.going ≡ false }
        requires fits { self.position + length line.now < 2 ^ 64 }
        ensures scanned { AddsLine self line.now result }
        ensures position { result.position ≡ self.position + length line.now }
        ensures trailers { result.run.trailers ≤ 1 }
        ensures others { result.run.others ≤ 1 }
    {
        Scan {
            position: self.position + line.len(),
            last,
            next: self.next,
            start: self.next,
            going: true,
            some: true,
            run: LineCounts::new().with_line(line),
        }
    }

    /// Adds a line.
    #[inline(always)]
    fn with_line(self, line: &[u8]) -> Scan
        requires non_empty { line.now ≢ [] }
        requires fits { self.position + length line.now < 2 ^ 64 }
        requires trailers { self.run.trailers ≤ self.position }
        requires others { self.run.others ≤ self.position }
        ensures scanned { AddsLine self line.now result }
        ensures position { result.position ≡ self.position + length line.now }
        ensures trailers { result.run.trailers ≤ result.position }
        ensures others { result.run.others ≤ result.position }
    {
        let content = line_content(line);
        let last = self.position + content.len();
        if is_blank_line(content) {
            return self.with_blank(line, last);
        }
        if self.going {
            self.with_next(line, last)
        } else {
            self.with_first(line, last)
        }
    }
}

/// Scans the lines of a body.
fn scanned(body: &[u8]) -> Scan
    ensures { Scanned (lines_of body.now) result }
{
    let mut rest = body;
    let mut scan = Scan::new();
    'lines: while let Some((line, after)) = split_line(rest) {
        scan = scan.with_line(line);
        rest = after;
    }
    scan
}

/// Returns the start of the trailer block of a body, or the length of the body without a block.
pub(crate) fn block_start(body: &[u8]) -> usize
    ensures { IsTrailerBlockStart body.now result }
{
    let scan = scanned(body);
    if scan.some && scan.run.is_block() {
        scan.start
    } else {
        body.len()
    }
}
