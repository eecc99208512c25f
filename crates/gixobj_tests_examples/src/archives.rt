//! Archived histories, and the tip of one.

use gix_object::Memory;
use gix_object::hash::Kind;
use gix_object::import::Importer;
use gixobj_examples_edits::archive::{archive, tip_of};
use gixobj_tests_api::imports::samples::{COMMITS, Outcome, STEPS, StepRow, steps_of};
use gixobj_tests_api::samples::id;
use std::alloc::Global;

/// Id that `git mktree --missing` prints for the root of the last of the three steps.
const ROOT: &[u8] = b"3c4e9cd789d88d8d89c1073707c3585e41b0e614";

#[test]
fn returns_last_step_as_tip(rt: HostRuntime) {
    let alloc = rt.alloc();
    let [_, _, last] = COMMITS;
    let steps = steps_of(alloc, &STEPS);
    let tip = tip_of(alloc, Memory::new(alloc), Kind::Sha1, &steps);
    assert!(rt; matches!(&tip, Ok(Some(it)) if it.commit == id(last.as_bytes())));
    assert!(rt; matches!(&tip, Ok(Some(it)) if it.written.id == id(ROOT)));
    assert!(rt;
        matches!(
            &tip_of(alloc, Memory::new(alloc), Kind::Sha1, &[]),
            Ok(None)
        )
    );
}

/// Archives the steps of these rows.
fn archived(alloc: Global, rows: &[StepRow]) -> Outcome {
    let mut importer = Importer::new(alloc, Memory::new(alloc), Kind::Sha1);
    match archive(&mut importer, &steps_of(alloc, rows)) {
        Ok(done) => Outcome { done, error: None },
        Err(stopped) => Outcome {
            done: stopped.done,
            error: Some(stopped.error),
        },
    }
}

#[test]
fn archives_steps_before_rejected_author(rt: HostRuntime) {
    let alloc = rt.alloc();
    let [first, second, _] = STEPS;
    let [one, two, _] = COMMITS;
    assert!(rt; archived(alloc, &STEPS).has(&COMMITS, 0));
    assert!(rt; archived(alloc, &[first, second, ("A>", &[])]).has(&[one, two], 5));
}
