//! A run of the entire script of ten lines, in which any allocation may fail. The replies after the one for
//! memory follow from the commands that succeeded and the trees that were kept.

use crate::runs::allocation_failures::{Ample, Outcome, ample_replies, edit_reply, outcome_of};
use crate::runs::samples::{TEN_LINES, editor_over, number_of, replies_to};
use gixobj_base::encode;
use gixobj_base::hash::ObjectId;
use gixobj_editor::editor::{Editor, Error};
use gixobj_editor::{EditReply, Reply};
use gixobj_store_keep::KeepError;
use gixobj_tests_stores::failing::Failing;
use std::alloc::{AllocError, Global};

/// The numbers of the calls of `keep` in a run of the script.
static KEEPS: [u64; 5] = [1, 2, 3, 4, 5];

/// What a command did, whether or not the trees were kept.
#[derive(Clone, Copy, PartialEq, Eq)]
enum Effect {
    Done,
    Failed(u8),
    Wrote(ObjectId),
    WriteFailed,
}

/// Returns what the command of a reply did.
fn effect_of(reply: &Reply<encode::Error>) -> Option<Effect> {
    match (reply, edit_reply(reply)) {
        (Reply::AtRefused(error), _) => Some(Effect::Failed(number_of(error))),
        (_, Some(EditReply::Done)) => Some(Effect::Done),
        (_, Some(EditReply::Refused(error))) => Some(Effect::Failed(number_of(error))),
        (_, Some(EditReply::Written(written))) => Some(Effect::Wrote(written.id)),
        (_, Some(EditReply::NotKept(written, _, _))) => Some(Effect::Wrote(written.id)),
        (_, Some(EditReply::WriteRefused(_))) => Some(Effect::WriteFailed),
        _ => None,
    }
}

/// The first reply of a run that isn't the one with ample memory.
#[derive(Clone, Copy)]
enum Stop {
    /// The command of this number, from 0, failed in an allocation, and nothing was emitted.
    Command(usize),
    /// The call of `keep` of this number, from 0, failed in an allocation.
    Keep(usize),
    /// A reply is neither that with ample memory nor out of memory.
    Other,
}

/// Returns how many trees the writes before the command of this number emit.
fn trees_before(number: usize) -> usize {
    let mut count = 0usize;
    for it in ample_replies().iter().take(number) {
        if let Ample::Wrote(_, trees) = it {
            count = count.saturating_add(*trees);
        }
    }
    count
}

/// Returns how a run stops at the command of this number, if its reply isn't the one with ample memory.
fn stop_at(number: usize, reply: &Reply<encode::Error>, ample: Ample) -> Option<Stop> {
    if let Some(EditReply::NotKept(_, count, KeepError::OutOfMemory)) = edit_reply(reply) {
        return Some(Stop::Keep(trees_before(number).saturating_add(*count)));
    }
    match outcome_of(reply, ample) {
        Outcome::Ample => None,
        Outcome::OutOfMemory => Some(Stop::Command(number)),
        Outcome::Other => Some(Stop::Other),
    }
}

/// Returns the first reply that isn't the one with ample memory.
fn first_stop(replies: &[Reply<encode::Error>]) -> Option<Stop> {
    for (number, (reply, ample)) in replies.iter().zip(ample_replies()).enumerate() {
        if let Some(stop) = stop_at(number, reply, *ample) {
            return Some(stop);
        }
    }
    None
}

/// Returns the lines of the script without the one of this number.
fn script_without(alloc: Global, omitted: usize) -> Result<String, AllocError> {
    let mut script = String::new(alloc);
    for (number, line) in TEN_LINES.lines().enumerate() {
        if number != omitted {
            script.push_str(line)?;
            script.push('\n')?;
        }
    }
    Ok(script)
}

/// Returns whether the commands of two runs did the same. The second run lacks the command of this number.
fn have_same_effects(
    replies: &[Reply<encode::Error>],
    omitted: usize,
    others: &[Reply<encode::Error>],
) -> bool {
    let mut others = others.iter();
    for (number, reply) in replies.iter().enumerate() {
        if number != omitted {
            let (Some(other), Some(effect)) = (others.next(), effect_of(reply)) else {
                return false;
            };
            if effect_of(other) != Some(effect) {
                return false;
            }
        }
    }
    others.next().is_none()
}

/// Returns whether the replies are those to the script without the command of this number, over a store that
/// fails in some calls of `keep`.
fn follow_without(
    alloc: Global,
    replies: &[Reply<encode::Error>],
    omitted: usize,
    keeps_that_fail: &'static [u64],
) -> bool {
    let mut editor = editor_over(alloc, &[], keeps_that_fail);
    let Ok(script) = script_without(alloc, omitted) else {
        return false;
    };
    match replies_to(alloc, &mut editor, script.as_str()) {
        Some(others) => have_same_effects(replies, omitted, others.as_slice()),
        None => false,
    }
}

/// Returns whether the replies follow from the commands that succeeded and the trees that were kept.
fn follow(alloc: Global, replies: &[Reply<encode::Error>]) -> bool {
    let count = ample_replies().len();
    match first_stop(replies) {
        None => replies.len() == count,
        Some(Stop::Command(number)) => follow_without(alloc, replies, number, &[]),
        Some(Stop::Keep(position)) => {
            let failing = KEEPS
                .get(position..position.saturating_add(1))
                .unwrap_or(&[]);
            follow_without(alloc, replies, count, failing)
        }
        Some(Stop::Other) => false,
    }
}

/// Runs the script, and returns whether its replies are those with ample memory.
fn has_ample_replies(alloc: Global, editor: &mut Editor<Failing>) -> bool {
    match replies_to(alloc, editor, TEN_LINES) {
        Some(replies) => replies.len() == ample_replies().len() && first_stop(&replies).is_none(),
        None => false,
    }
}

/// If the entire run fails, nothing was done, and it is repeated.
#[test]
fn runs_entire_script_whatever_allocation_fails(rt: HostRuntime) {
    let alloc = rt.alloc();
    let mut editor = editor_over(alloc, &[], &[]);
    let follows = match replies_to(alloc, &mut editor, TEN_LINES) {
        Some(replies) => follow(alloc, replies.as_slice()),
        None => has_ample_replies(alloc, &mut editor),
    };
    assert!(rt; follows);
}
