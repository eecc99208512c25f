//! The counts of trailers and other lines among consecutive lines that aren't blank, which decide whether these are a
//! block of trailers.
ghost use Rattle.std.specs.Prelude.{◌≡◌, ◌+◌, ◌*◌, ◌<◌, ◌≤◌, ◌^◌, ◌||◌, ◌↔◌, ◌⊎◌, IsTrue, if◌then◌else◌, true, false};
ghost use Rattle.gixobj_text.specs.BodyLines.{is_indented as is_indented_of, is_git_generated as is_recognised_of};
ghost use Rattle.gixobj_text.specs.TrailerBlocks.{counts_as_trailer as is_trailing_of};

use crate::commit::message::body::git_generated::begins_git_generated;
use crate::commit::message::body::lines::{begins_indented, line_content};
use crate::commit::message::body::trailer_lines::is_line_of_trailer;

/// The counts of the lines of a run.
#[derive(Clone, Copy)]
pub(crate) struct LineCounts {
    /// The number of lines that count as trailers.
    trailers: usize,
    /// The number of other lines.
    others: usize,
    /// Whether git generates a line of the run.
    recognised: bool,
    /// Whether the last line that isn't indented counts as a trailer.
    above: bool,
}

/// Returns what a line adds to the number of other lines.
#[inline(always)]
fn other_of(trailing: bool, indented: bool, above: bool) -> usize
    ensures value { result ≡ (if trailing then 0 else if indented then
        (if above then 0 else 1) else 1) }
    ensures bounded { result ≤ 1 }
{
    if trailing || indented && above { 0 } else { 1 }
}

/// Returns whether the last line that isn't indented, up to this one, counts as a trailer.
#[inline(always)]
fn above_after(trailing: bool, indented: bool, above: bool) -> bool
    ensures { result ≡ (if trailing then true else if indented then above else false) }
{
    trailing || indented && above
}

impl LineCounts {
    ghost use Rattle.std.specs.Prelude.{ℕ, List, [], ◌∷◌, ◌++◌};
    ghost use Rattle.gixobj_text.specs.RunCounts.{Counts, other_count_of as other_of_of};

    /// Returns the counts of no lines.
    pub(crate) fn new() -> LineCounts
        ensures counts { Counts [] result }
        ensures trailers { result.trailers ≡ 0 }
        ensures others { result.others ≡ 0 }
    {
        LineCounts {
            trailers: 0,
            others: 0,
            recognised: false,
            above: false,
        }
    }

    /// Returns the counts with one more line.
    #[inline(always)]
    pub(crate) fn with_line(self, line: &[u8]) -> LineCounts
        requires trailers { self.trailers + 1 < 2 ^ 64 }
        requires others { self.others + 1 < 2 ^ 64 }
        ensures max_trailers { result.trailers ≤ self.trailers + 1 }
        ensures max_others { result.others ≤ self.others + 1 }
        ensures trailers { result.trailers ≡ self.trailers +
            (if is_trailing_of line.now then 1 else 0) }
        ensures others { result.others ≡ self.others + other_of_of self.above line.now }
        ensures recognised { result.recognised ≡ (self.recognised || is_recognised_of line.now) }
        ensures above { result.above ≡ (if is_trailing_of line.now then true
            else if is_indented_of line.now then self.above else false) }
    {
        let bytes = line_content(line);
        let (recognised, indented) = (begins_git_generated(bytes), begins_indented(bytes));
        let trailing = recognised || is_line_of_trailer(bytes);
        LineCounts {
            trailers: self.trailers + usize::from(trailing),
            others: self.others + other_of(trailing, indented, self.above),
            recognised: self.recognised || recognised,
            above: above_after(trailing, indented, self.above),
        }
    }

    /// Returns whether a run with these counts is a trailer block.
    pub(crate) fn is_block(self) -> bool
        ensures { IsTrue result ↔ ((0 < self.trailers) × (self.others ≡ 0))
            ⊎ (IsTrue self.recognised × (self.others ≤ 3 * self.trailers)) }
    {
        if self.trailers > 0 && self.others == 0 {
            return true;
        }
        self.recognised && is_at_most_triple(self.others, self.trailers)
    }
}

/// Returns whether the number is at most three times the other.
fn is_at_most_triple(number: usize, other: usize) -> bool
    ensures { IsTrue result ↔ (number ≤ 3 * other) }
{
    let (third, rest) = (number / 3, number % 3);
    third < other || third == other && rest == 0
}
